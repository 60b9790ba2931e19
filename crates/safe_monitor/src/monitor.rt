ghost use Rattle.std.specs.Prelude.{◌≡◌, ◌<◌, IfOk, Ok, Some, [], ◌∷◌, length, false};
ghost use Rattle.plain_store.specs.{checked, opening_store};
ghost use Rattle.store_image.specs.{image_of};
ghost use Rattle.model.specs.{width};
ghost use Rattle.model.specs.safe_number.{bit_in};
ghost use Rattle.laws.specs.{IsThere};
ghost use Rattle.safe_monitor.specs.Safe.{ReportsSafe};
ghost use Rattle.safe_monitor.specs.Monitoring.{HasObserved, IfAllThere, IfThere, IsOpened, OfObserved, OpenAs, PassesStray, ReportsEndThere, ReportsMonitored};

use crate::monitored_bit::MonitoredBit;
use crate::packed::MonitoredBits;
use crate::places::{REGISTERS, copy_of, is_there, register_of};
use model::{Access, bit_of, field_numbered, width_of};
use plain_store::{Setup, opened};
use std::alloc::{AllocError, Global};
use std::marker::Model;
use store_image::Image;

/// A monitor of the law `Safe`. It observes the entries of a record one at a time. It keeps the state that the safe
/// rule needs of each single-reader bit, in four bits, so it needs the same memory however long the record is.
#[derive(Drop)]
pub struct SafeMonitor {
    setup: Setup,
    registers: Vec<MonitoredBits>,
}

impl Model for SafeMonitor {
    ghost use Rattle.safe_monitor.specs.Monitoring.{IsMonitor, MonitorState};

    ghost Value = { MonitorState };

    ghost view = { λ w. record { setup = w.setup; registers = w.registers.items } };

    ghost invariant = { λ w. IsMonitor (record { setup = w.setup; registers = w.registers.items }) };
}

impl SafeMonitor {
    /// Creates the monitor before the first entry. It fails only if memory runs out.
    pub fn new(alloc: Global, setup: &Setup) -> Result<SafeMonitor, AllocError>
        requires { checked setup.now ≡ Ok tt }
        ensures setup { IfOk result (λ w. w.setup ≡ setup.now) }
        ensures observed { IfOk result (λ w. HasObserved w []) }
    {
        setup.opening.pairs_are_sound();
        let image = opened(Image::empty(setup.slots, setup.callers()), setup)?;
        let mut registers = Vec::new(alloc);
        for number in 0..usize::from(setup.processes) * REGISTERS {
            let monitored_bits = opening_monitored(alloc, setup, image.bytes(), number)?;
            registers.push(monitored_bits)?;
        }
        Ok(SafeMonitor {
            setup: *setup,
            registers,
        })
    }

    /// Copies the monitor. The copy has then observed the same entries.
    pub fn twin(&self, alloc: Global) -> Result<SafeMonitor, AllocError>
        ensures { IfOk result (λ w. w ≡ self.now) }
    {
        let mut registers = Vec::new(alloc);
        for monitored_bits in &self.registers {
            registers.push(monitored_bits.twin(alloc)?)?;
        }
        Ok(SafeMonitor {
            setup: self.setup,
            registers,
        })
    }

    /// Observes one more entry of any kind, by its access, and returns whether it keeps the law after the entries before it. It
    /// allocates nothing.
    ///
    /// An access of a bit out of range changes nothing, and its entry is reported to keep the law. This is right if no
    /// entry before it was of such a bit.
    #[inline]
    pub fn observe(&mut self, access: &Option<Access>) -> bool
        ensures setup { self.new.setup ≡ self.old.setup }
        ensures observed { OfObserved self.old access.now
            (λ _ past e. HasObserved self.new (e ∷ past)) }
        ensures in_range { OfObserved self.old access.now (IfThere result) }
        ensures stray { PassesStray self.old.setup access.now result }
        ensures first { OfObserved self.old access.now (IfAllThere result) }
    {
        let Some(access) = access else {
            return true;
        };
        if !is_there(&self.setup, access) {
            return true;
        }
        self.observe_there(*access)
    }

    /// Returns whether an access that is made now ends a read that a write overlapped. The result is `false` for a bit that is
    /// out of range.
    pub fn overlaps(&self, access: &Access) -> bool
        ensures in_range { ReportsEndThere self.now access.now result }
        ensures stray { (IsThere self.now.setup access.now → ⊥) → result ≡ false }
    {
        is_there(&self.setup, access) && self.monitored_at(access).overlaps(access.how)
    }

    /// Returns the look of a bit in range.
    #[inline]
    fn monitored_at(&self, access: &Access) -> MonitoredBit
        requires { IsThere self.now.setup access.now }
        ensures { ReportsMonitored self.now access.now result }
    {
        let place = copy_of(&self.setup, access);
        self.registers[register_of(access)].get(place)
    }

    /// Observes one more access, of a bit in range.
    #[inline]
    fn observe_there(&mut self, access: Access) -> bool
        requires { IsThere self.old.setup access }
        ensures setup { self.new.setup ≡ self.old.setup }
        ensures observed { OfObserved self.old (Some access)
            (λ _ past e. HasObserved self.new (e ∷ past)) }
        ensures answer { OfObserved self.old (Some access) (ReportsSafe result) }
    {
        let register = register_of(&access);
        let place = copy_of(&self.setup, &access);
        let monitored_bits = &mut self.registers[register];
        let monitored_bit = monitored_bits.get(place);
        monitored_bits.set(place, monitored_bit.with(access.how));
        monitored_bit.allows(access.how)
    }
}

/// Returns the looks of a register before the first entry. The first image of process 0 initially has these bytes.
fn opening_monitored(
    alloc: Global,
    setup: &Setup,
    image: &[u8],
    number: usize,
) -> Result<MonitoredBits, AllocError>
    requires good { checked setup.now ≡ Ok tt }
    requires image { image.now ≡ image_of (opening_store setup.now) }
    ensures { IfOk result (λ monitored_bits. IsOpened setup.now number monitored_bits) }
{
    let field = field_numbered(number % REGISTERS);
    let width = usize::from(width_of(field, setup));
    let mut monitored_bits = MonitoredBits::new(alloc, usize::from(setup.processes) * width)?;
    if number != IMAGE0 {
        return Ok(monitored_bits);
    }
    open_copies(&mut monitored_bits, image, width);
    Ok(monitored_bits)
}

/// The number of the first image of process 0 among the registers.
const IMAGE0: usize = 5;

/// Sets each reader's copy of each bit to its initial value, as in these bytes.
fn open_copies(monitored_bits: &mut MonitoredBits, bytes: &[u8], width: usize)
    requires { 0 < width × width < 65536 }
    ensures length { length monitored_bits.new ≡ length monitored_bits.old }
    ensures each { OpenAs bytes.now width (length monitored_bits.old) monitored_bits.new }
{
    for k in 0..monitored_bits.len() {
        monitored_bits.set(k, MonitoredBit::opening(bit_of(bytes, (k % width) as u16)));
    }
}
