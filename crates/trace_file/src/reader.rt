//! Reads the lines of a trace file.
ghost use Rattle.std.specs.Prelude.{◌≡◌, MatchOption, None, Ok, Some, false, true};
ghost use Rattle.files.specs.{Takes, texts, words_of, words_read};
ghost use Rattle.trace.specs.{is_trace_setup};
ghost use Rattle.trace_file.specs.Reading.{cell_from};
ghost use Rattle.trace_file.specs.TraceFiles.{declared_read, entry_read, first_read, is_declared as registers_or_entries, line_said, memory_read, processes_read, register_read, trace_grammar};

use crate::cells::cell;
use crate::entries::read_entry;
use crate::forms::TRACE;
use crate::keywords::{TraceLineKind, memory};
use crate::lines::entry_in;
use crate::moves::check_key;
use crate::numbers::process;
use crate::registers::{cell_name, may_declare, opening};
use crate::short_lines::short_entry;
use files::{FaultKind, FromLines};
use smallvec::SmallVec;
use std::alloc::Global;
use std::marker::Model;
use trace::{Cell, TraceEntry, TraceMemory, TraceRegister, TraceSetup};

/// The part of a trace file that was read: the setup so far and the entry of the last line. The caller takes that entry before
/// it reads the next line.
#[derive(Drop)]
pub struct TraceReader {
    alloc: Global,
    setup: TraceSetup,
    /// Whether `processes` was read.
    has_processes: bool,
    /// Whether `memory` was read.
    has_memory: bool,
    /// Whether an entry has ended the registers.
    ended: bool,
    /// Whether the last line was an entry.
    is_entry: bool,
    /// The last entry. It is overwritten in place, since a new list of marks would cost more.
    entry: TraceEntry,
}

impl Model for TraceReader {
    ghost use Rattle.std.specs.Prelude.{◌≡◌, true, if◌then◌else◌, Some, None};
    ghost use Rattle.trace.specs.{is_trace_setup};
    ghost use Rattle.trace_file.specs.TraceFiles.{TraceProgress};

    ghost Value = { TraceProgress };

    ghost view = { λ r. record { setup = r.setup; has_processes = r.has_processes; has_memory = r.has_memory; ended = r.ended; entry = if r.is_entry then Some r.entry else None } };

    ghost invariant = { λ r. is_trace_setup r.setup ≡ true };
}

impl FromLines for TraceReader {
    ghost use Rattle.trace_file.specs.TraceFiles.{trace_grammar};

    ghost grammar = { trace_grammar };

    fn first(alloc: Global, word: &[u8], words: &[&[u8]]) -> Result<TraceReader, FaultKind> {
        TraceReader::new(alloc, word, words)
    }

    fn later(&mut self, word: &[u8], words: &[&[u8]]) -> Result<(), FaultKind> {
        match TraceLineKind::of(word) {
            None => Err(FaultKind::Unknown),
            Some(kind) => self.line(kind, word, words),
        }
    }
}

impl TraceReader {
    /// Returns the setup so far.
    pub fn setup(&self) -> &TraceSetup
        ensures value { result.now ≡ self.now.setup }
        ensures good { is_trace_setup result.now ≡ true }
    {
        &self.setup
    }

    /// Returns the cell that a word names.
    ///
    /// # Errors
    ///
    /// Returns `Unknown` if it names no cell of a register, and `Number` if its index is not a number of 8 bits.
    pub fn cell(&self, word: &[u8]) -> Result<Cell, FaultKind>
        ensures { result ≡ cell_from 0 self.now.setup.registers word.now }
    {
        cell(self.setup.registers.as_slice(), word)
    }

    /// Returns the entry of the last line, if it is one.
    pub fn last_entry(&self) -> Option<&TraceEntry>
        ensures { MatchOption result (self.now.entry ≡ None) (λ e. self.now.entry ≡ Some e.now) }
    {
        if self.is_entry {
            Some(&self.entry)
        } else {
            None
        }
    }

    /// Drops the entry of the last line.
    pub fn forget_entry(&mut self)
        ensures { self.new ≡ record self.old { entry = None } }
    {
        self.is_entry = false;
    }

    /// Reads the first line: `trace 1`.
    fn new(alloc: Global, word: &[u8], words: &[&[u8]]) -> Result<TraceReader, FaultKind>
        ensures { result ≡ first_read word.now (texts words.now) }
    {
        if !(word == TRACE.as_bytes() && words.len() == 1 && words[0] == b"1".as_slice()) {
            return Err(FaultKind::NotFirst);
        }
        Ok(TraceReader {
            alloc,
            setup: TraceSetup {
                processes: 2,
                memory: TraceMemory::Safe,
                registers: Vec::new(alloc),
            },
            has_processes: false,
            has_memory: false,
            ended: false,
            is_entry: false,
            entry: TraceEntry {
                process: 0,
                access: None,
                marks: SmallVec::new(alloc),
            },
        })
    }

    /// Reads a later line, by what its first word means.
    fn line(&mut self, kind: TraceLineKind, word: &[u8], words: &[&[u8]]) -> Result<(), FaultKind>
        ensures { Takes result (line_said kind word.now (texts words.now) self.old) self.new }
    {
        match kind {
            TraceLineKind::Trace => Err(FaultKind::NotFirst),
            TraceLineKind::Processes => self.processes(words),
            TraceLineKind::Memory => self.memory(words),
            TraceLineKind::Register => self.register(false, words),
            TraceLineKind::Shared => self.register(true, words),
            TraceLineKind::Entry => self.entry(word, words),
        }
    }

    /// Returns whether a register or an entry was read.
    fn is_declared(&self) -> bool
        ensures { result ≡ registers_or_entries self.now }
    {
        self.ended || !self.setup.registers.is_empty()
    }

    /// Reads the number of processes.
    #[tactic(auto, unfolding(crate::specs::TraceFiles::processes_read))]
    fn processes(&mut self, words: &[&[u8]]) -> Result<(), FaultKind>
        ensures { Takes result (processes_read (texts words.now) self.old) self.new }
    {
        if self.has_processes || self.is_declared() {
            return Err(FaultKind::NotFirst);
        }
        if words.len() != 1 {
            return Err(FaultKind::Words);
        }
        let n = process(words[0])?;
        if n < 1 || n > 16 {
            return Err(FaultKind::BadSetup);
        }
        self.setup.processes = n;
        self.has_processes = true;
        Ok(())
    }

    /// Reads the memory.
    #[tactic(auto, unfolding(crate::specs::TraceFiles::memory_read))]
    fn memory(&mut self, words: &[&[u8]]) -> Result<(), FaultKind>
        ensures { Takes result (memory_read (texts words.now) self.old) self.new }
    {
        let Some((name, behind)) = words.split_first() else {
            return Err(if self.has_memory || self.is_declared() {
                FaultKind::NotFirst
            } else {
                FaultKind::Words
            });
        };
        let Some(memory) = memory(name) else {
            return Err(FaultKind::Unknown);
        };
        if self.has_memory || self.is_declared() {
            return Err(FaultKind::NotFirst);
        }
        if !behind.is_empty() {
            return Err(FaultKind::Words);
        }
        self.setup.memory = memory;
        self.has_memory = true;
        Ok(())
    }

    /// Reads a register.
    #[tactic(auto, unfolding(crate::specs::TraceFiles::register_read))]
    fn register(&mut self, is_shared: bool, words: &[&[u8]]) -> Result<(), FaultKind>
        ensures { Takes result (register_read is_shared (texts words.now) self.old) self.new }
    {
        check_key(2, "opens", words)?;
        if self.ended {
            return Err(FaultKind::NotFirst);
        }
        if words.len() != 2 && words.len() != 4 {
            return Err(FaultKind::Words);
        }
        let width = process(words[1])?;
        let opens = opening(words)?;
        let name = cell_name(words[0])?;
        self.declare(TraceRegister {
            name,
            width,
            opens,
            is_shared,
        })
    }

    /// Adds a register, if the setup allows it.
    fn declare(&mut self, register: TraceRegister) -> Result<(), FaultKind>
        ensures { Takes result (declared_read register self.old) self.new }
    {
        if !may_declare(&self.setup, &register) {
            return Err(FaultKind::BadSetup);
        }
        match self.setup.registers.push(register) {
            Ok(()) => Ok(()),
            Err(_) => Err(FaultKind::Memory),
        }
    }

    /// Reads a line, if it is an entry without a fault. Otherwise nothing changes.
    #[inline(always)]
    pub(crate) fn take_entry(&mut self, line: &[u8]) -> bool
        ensures taken { result ≡ true →
            words_read trace_grammar (words_of line.now) (Some self.old) ≡ Ok (Some self.new) }
        ensures unchanged { result ≡ false → self.new ≡ self.old }
    {
        let registers = self.setup.registers.as_slice();
        if let Some((process, access)) = short_entry(registers, line) {
            self.entry.process = process;
            self.entry.access = Some(access);
            self.entry.marks.clear();
        } else {
            let Some(entry) = entry_in(self.alloc, registers, line) else {
                return false;
            };
            self.entry = entry;
        }
        self.ended = true;
        self.is_entry = true;
        true
    }

    /// Reads an entry, after which a heading or a register is a fault.
    fn entry(&mut self, word: &[u8], words: &[&[u8]]) -> Result<(), FaultKind>
        ensures { Takes result (entry_read word.now (texts words.now) self.old) self.new }
    {
        let registers = self.setup.registers.as_slice();
        let entry = read_entry(self.alloc, registers, word, words)?;
        self.ended = true;
        self.is_entry = true;
        self.entry = entry;
        Ok(())
    }
}
