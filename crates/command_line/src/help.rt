//! The pages of the program's arguments and faults. Each line after `$ ` is a command, followed by what it prints. The usage
//! line above the general page, and above the page of a command, comes from `clap`.

/// The text that `--version` prints after the program's name: the version, and the logic that the sources are for, as the toolchain
/// names it. Builds of the toolchain with the same logic prove the same. A program cannot know whether it was built with proof, nor
/// from which commit, and the line states this.
pub const VERSION: &str =
    "0.2.0, sources for Rattle's logic dac8208d650f15bf; the program cannot tell how this copy was built";

/// The general page, from its usage line to the commands.
pub const WORDS: &str = r"       bakerystore COMMAND FILE   (FILE - is standard input)
       bakerystore                is short for `bakerystore plain -`

Commands, each with an example:

";

/// The rest of that page, below the commands.
pub const MORE_WORDS: &str = r"
  help COMMAND, COMMAND --help   what a command reads and prints
  help run                       the marks that a run prints
  help faults                    the kinds of fault, with their causes
  help, --help, -h               this page
  --version, -V                  the version, and the logic that its sources are for

Options:

  --at N      state: after how many events; `end` means after all of them
  --accesses  draw, draw-svg: show all accesses, also of a run and of a long file
  --any-lock  judge, draw, draw-svg: judge the record of any lock
  --explain   show the line and the word at fault, and what was expected there; this
              is so without the option if standard error is a terminal
  --from N    draw, draw-svg: show no entry (no event of a run) before number N
  --judge     draw, draw-svg: show the verdict on a record or a trace, with its reasons
  --quiet     show no progress. Without it, a run of more than two seconds shows its
              progress if standard error is a terminal and standard output is not;
              sweep does so if both are (plain and bits, which end soon, and race,
              whose threads all run at once, show none)
  --reads     draw, draw-svg: show the reads that a write overlapped
  --to N      draw, draw-svg: show no entry (no event of a run) after number N
  --why       judge: give the reasons of a bad verdict
  --          end the options: what follows is a file

Exit status:

  0   success
  1   a fault of the file (`line <n>: <kind>`), `read fault` or `write fault`
  2   invalid arguments
  3   a record or a race is `bad`
  4   out of memory (also `line <n>: memory`), or `no thread`

If you are new here, begin with lessons/README.md or docs/GUIDE.md.
";

/// The words that a run prints.
pub const RUN: &str =
    r"`replay` prints a line for each notable event of a run: the number of the event, the
process, and one of these marks. The entries of `record` have the same marks.

  call COMMAND   the process calls
  wait T         it has ticket T; its doorway ends, and it waits
  enter          it enters the critical section
  taken K REPLY  its command takes effect, as number K of the history, from 0
  leave          it leaves the critical section
  answer REPLY   its call is answered, or refused: `tickets-full P`, `stamps-full`,
                 or `withdrawn`
  fail           it halts, and its memory unit takes over
  settled B      its unit gives the bit whose write was interrupted the value B. The
                 line `torn` of `state --at` names that bit, if N is the number of
                 this line
  down           its unit has cleared its ticket and its choosing bit
  withdraw       it gives up waiting
  restart        it may call again

A line that makes no event has `-` in place of the number:

  turns                   `go` has made 65,536 steps without reaching its goal
  refused no-process      the process does not exist
  refused busy            a call: the previous call is not answered yet
  refused is-down         a call: the process has failed
  refused not-running     a step: the process is idle or down
  refused not-waiting     `withdraw`: the process does not wait
  refused already-failed  `fail`: the process has failed
  refused not-down        `restart`: the process is not down
  refused calls-full      a call: the process has made 65,535 (bakery 2)

After `show` comes the store, or `empty`, or `busy` while a process is inside. The
last line, `end`, counts the events, the commands taken and the lines `refused`.

  $ printf 'bakery 1\nwithdraw 0\nstep 2 1\nshow\n' | bakerystore replay -
  - 0 refused not-waiting
  - 2 refused no-process
  show empty
  end events 0 taken 0 refused 2
";

/// The kinds of fault.
pub const FAULTS: &str =
    r"If a file has faults, standard error reports one of them as `line <n>: <kind>`: the
first fault of the first faulty line. Then nothing is run, no verdict is printed, and
the status is 1. All lines of the file count, from 1 on. The kinds of fault, roughly in
the order in which they are looked for:

too-long    The line has more than 128 bytes.
              $ printf 'bakery 1\n# %0128d\n' 0 | bakerystore plain -
              line 2: too-long
            Or it is line 4,097 of a scenario or a bits file, whatever it contains.
            (Records and traces have any number of lines.)
              $ yes '#' | head -n 4097 | bakerystore plain -
              line 4097: too-long
            Or it is the 4,001st line of such a file after the headings and `open`
            lines, where empty lines and comments do not count.
              $ (echo bakery 1; yes show | head -n 4001) | bakerystore plain -
              line 4002: too-long

not-first   The first line is not `bakery 1` or `bakery 2` (in a bits file `bits 1`, in
            a record `record 1` or `record 2`, in a trace `trace 1`). The file has
            another version or another kind than the command reads, or begins with a
            byte order mark, or is UTF-16, or is empty.
              $ printf 'bits 1\nread\n' | bakerystore plain -
              line 1: not-first
              $ printf '\357\273\277bakery 1\n' | bakerystore plain -
              line 1: not-first
              $ bakerystore judge examples/failed-read.bakery
              line 1: not-first
            Or a line comes too late: the first line or a heading a second time, a
            heading after other lines, or `open` after lines other than these.
              $ printf 'bakery 1\nshow\nslots 2\n' | bakerystore plain -
              line 3: not-first
            In a trace: `processes` or `memory` comes a second time or after a register,
            or one of these three comes after an entry.

unknown     A word is not a key word: the first word of the line, the third of `call`
            and of `go`, the second of `flick`. In a file that begins with `bakery 1`,
            `open` and `ask` are not key words.
              $ printf 'bakery 2\ncall 0 rad a\n' | bakerystore plain -
              line 2: unknown
            In a record: the first word is neither a key word nor begins with a digit
            (in `record 1`, `open` is not one); a bit does not have the form
            `0.ticket.3.1`; or a word is not a move, mark, command, reply or answer.
              $ printf 'record 1\n0 0.tickets.3.1 read\n' | bakerystore judge -
              line 2: unknown
            In a trace: the first word is neither a key word nor begins with a digit; a
            register was not declared; or a word is not a memory, move or mark. Blanks
            belong around the colon before a mark.
              $ printf 'trace 1\nregister flag 1\n0: call\n' | bakerystore judge -
              line 3: unknown

words       The line has too few words, or too many.
              $ printf 'bakery 1\nstep 0\n' | bakerystore plain -
              line 2: words
            Or an entry of a record has more than three marks, or one of a trace more
            than four, or neither an access nor a mark.
              $ printf 'record 1\n0 : fail : down : fail : down\n' | bakerystore judge -
              line 2: words

number      An operand is not a number, has a leading 0, or is too large. The greatest
            values are 255 for processes and headings, 100,000 for `step` and `wander`,
            64 bits for a seed, 64 bits with a sign for what `add` adds, and 1 in a
            bits file. In a record they are 255 for processes, 65,535 for a bit and
            after `last`, 32 bits for a ticket, 64 bits for a place, and 1 for what is
            read, written or settled. In a trace they are 255 for processes, indices
            and widths, and 32 bits for the value of a register.
              $ printf 'bakery 1\nstep 0 100001\n' | bakerystore plain -
              line 2: number

bad-name    A name is not 1 to 8 of the characters a to z, 0 to 9 and _. The name of a
            register of a trace does not begin with a digit.
              $ printf 'bakery 1\ncall 0 read A\n' | bakerystore plain -
              line 2: bad-name

bad-value   A value is neither `c:` and a count of 64 bits with a sign, nor `t:` and a
            text of at most 12 visible ASCII characters.
              $ printf 'bakery 1\ncall 0 write a 5\n' | bakerystore plain -
              line 2: bad-value

bad-setup   A heading is out of range: `processes` 1 to 8, `tickets` and `stamps` 1
            to 16 (twice that in a file that begins with `bakery 2`), `slots` 1 to 8.
              $ printf 'bakery 1\nprocesses 9\n' | bakerystore plain -
              line 2: bad-setup
            Or a name is opened twice, or the file has more `open` lines than slots.
              $ printf 'bakery 2\nopen a c:1\nopen b c:2\n' | bakerystore plain -
              line 3: bad-setup
            In a trace: `processes` is not 1 to 16; a width is not 1 to 32 (1 to 8 in
            regular memory); an opening value does not fit the width; a name is declared
            twice; `shared` comes without `memory atomic`; or there are more than 64
            registers.
              $ printf 'trace 1\nshared turn 1\n' | bakerystore judge -
              line 2: bad-setup

memory      The system had no memory for the line. The status is 4.

Other faults. With --explain, and if standard error is a terminal, a second line names
the stream and the reason of a read fault or a write fault.

read fault      The file does not exist or may not be read; or reading has failed.
                  $ bakerystore plain --explain nofile
                  read fault
                  nofile: no such file
write fault     Writing has failed: the disk is full, or the reader has gone away, as
                `| head -n 1` does once it has its line. The status is 1.
                  $ bakerystore plain examples/counters.bakery > /dev/full
                  write fault
out of memory   The system had no memory. The status is 4.
no thread       A thread of a race could not be started. The status is 4.
";
