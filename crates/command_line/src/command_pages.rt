//! The page of each command. Each line after `$ ` is a command, followed by what it prints. The usage line above it comes
//! from `clap`.

use crate::commands::Engine;

/// Returns the page of the command that runs this engine.
pub fn page_of(engine: Engine) -> &'static str {
    match engine {
        Engine::Plain => PLAIN,
        Engine::Bits => BITS,
        Engine::Replay => REPLAY,
        Engine::Audit => AUDIT,
        Engine::Sweep => SWEEP,
        Engine::Race => RACE,
        Engine::Record => RECORD,
        Engine::State => STATE,
        Engine::Calls => CALLS,
        Engine::Judge => JUDGE,
        Engine::Draw => DRAW,
        Engine::DrawSvg => DRAW_SVG,
    }
}

/// The page of `plain`.
const PLAIN: &str = r"
Makes the calls of a scenario on the sequential store, in the order of the file. Each
call prints its place in the history, its process and its reply, and each `show` the
store. Other lines do nothing. The lines of a scenario: bakerystore help replay

  $ printf 'bakery 2\nopen a c:5\ncall 0 add a 1\ncall 1 read a\nshow\n' | bakerystore plain -
  0 0 sum 6
  1 1 value c:6
  show a=c:6
";

/// The page of `bits`.
const BITS: &str = r"
Makes single accesses to one safe bit, which is initially 0. Each read that ends prints
what it returned, and each line whose access cannot be made then prints `refused`.

The first line is `bits 1`. The other lines:

  write 0, write 1    a write begins
  end                 it ends
  settle 0, settle 1  it is settled at this value, in place of its end
  read                a read begins
  value 0, value 1    it ends, with this value if a write overlapped it
  drop                it is given up

  $ printf 'bits 1\nwrite 1\nread\nend\nvalue 0\nread\nvalue 0\nend\n' | bakerystore bits -
  0
  1
  refused
";

/// The page of `replay`.
const REPLAY: &str = r"
Runs a scenario. Each line has the number of the event, the process, and what happened;
the last line counts events, commands taken and refusals.

The first line of a scenario is `bakery 1` or `bakery 2`. The other lines:

  processes N, tickets N, stamps N, slots N   headings: 2, 4, 4, 1 if left out
  open NAME VALUE                             a pair that the store begins with (bakery 2)
  call P read NAME                            a process calls
  call P write NAME VALUE                     (VALUE: c: and a count, or t: and a text)
  call P add NAME COUNT
  call P cas NAME VALUE VALUE                 (writes the second if it finds the first)
  call P ask                                  which change was its last (bakery 2)
  step P N                                    the process makes N steps
  go P wait, inside, idle or down             it makes steps until it is so
  wander N                                    N steps of processes picked at random
  flick 0, flick 1, flick pcg SEED            what overlapped reads return from here on
  fail P, withdraw P, restart P               it fails, gives up waiting, or restarts
  show                                        prints the store

  $ printf 'bakery 2\ncall 0 read a\ncall 0 read a\nshow\n' | bakerystore replay -
  0 0 call read a
  - 0 refused busy
  show empty
  end events 1 taken 0 refused 1

What the marks mean: bakerystore help run
README.md explains a longer run, mark by mark.
";

/// The page of `audit`.
const AUDIT: &str = r"
Runs a scenario, as replay does, and judges each entry of its record. Prints `good` and
the number of entries; or `bad`, the first entry that breaks a law, and the law, with
status 3. The lines of a scenario: bakerystore help replay

  $ printf 'bakery 2\ncall 0 read a\nstep 0 3\n' | bakerystore audit -
  good 4
";

/// The page of `sweep`.
const SWEEP: &str = r"
Runs a scenario, as replay does, and makes two more runs for each event of a process
that has not failed: with the flick 0 and with the flick 1. In these the process fails
after the event, its memory unit does its work, and it is restarted; all processes go
on; and the calls of the file are made again. If these calls would begin in the same
state as those of one of the last eight runs, the run takes over that run's outcome.
Prints how many such runs there are, how many are good, and how many were stuck. The
status is 3 if a run is bad.
The lines of a scenario: bakerystore help replay

  $ printf 'bakery 2\ncall 0 add a 1\n' | bakerystore sweep -
  sweep runs 2 good 2 stuck 0
";

/// The page of `race`.
const RACE: &str = r"
Makes the `call` lines of each process of a scenario on a thread of its own. Prints the
refused calls; each answer, after its process and its place; the final store; and
`good` if the answers and the store fit one history, otherwise `bad`, with status 3.
The threads decide which process is first, so one file has several outputs.
The lines of a scenario: bakerystore help replay

  $ printf 'bakery 2\nprocesses 1\nopen a c:5\ncall 0 add a 1\ncall 1 ask\n' | bakerystore race -
  - 1 refused no-process
  0 0 sum 6
  show a=c:6
  good
";

/// The page of `record`.
const RECORD: &str = r"
Runs a scenario, as replay does, and prints its record: the setup, and each entry on a
line of its own. The lines of a scenario: bakerystore help replay
The lines of a record: docs/RECORDS.md

  $ printf 'bakery 1\ntickets 1\nslots 1\ncall 0 read a\nstep 0 1\n' | bakerystore record -
  record 1
  processes 2
  tickets 1
  stamps 4
  slots 1
  0 : call read a
  0 0.choosing.0.0 write 1
";

/// The page of `state`.
const STATE: &str = r"
Makes the first events of a scenario's run, as many as --at gives (`end`: all), and
prints the state after them: the stage of each process, its call and its ticket, which
process it waits for, what it reads or writes, and `next`, what its next step adds with
either flick; the registers that differ from their initial values; and the history.
FILE may also be a record; its first word decides. An event is then an entry, and the
entries are checked as by judge. If one of the first N is bad, the state before it is
printed, and then `bad`, the number of that entry and the law, with status 3.
The lines of a scenario: bakerystore help replay
The lines of a record: docs/RECORDS.md

  $ printf 'bakery 2\ncall 0 read a\nstep 0 1\n' | bakerystore state --at end -
  events 2
  last 0 0.choosing.0.0 write 1
  line 3 made 1 step 0 1
  process 0 doorway
  process 0 call 1 read a at 0
  process 0 doorway from 1
  process 0 writes 0.choosing 1 of 4 value 1
  process 0 open 0.choosing.0.0 write 1
  process 0 next 0.choosing.0.0 end
  process 1 idle
  register 0.choosing readers 0 flickers
  register 0.choosing readers 1 0
  history 0
  store empty
";

/// The page of `calls`.
const CALLS: &str = r"
Runs a scenario, as replay does, and prints a table of its calls: comma-separated
values, a line for each call when it ends, and at the end those that have not ended.
The columns are the process, the number of its call, and the command; the events of
its marks, the first and the last event of its doorway, and the place of its command;
how many reads and writes of bits the process began, and how many of its reads were
overlapped; how many events it waited, and for which process last; and its answer. A
field without a value is empty.
FILE may also be a record or a trace, good or bad, of any lock; its first word decides.
The table then follows the last line of the file, and reports no process that a call
waited for. Of a trace, the columns of the store, of failures and of withdrawals are
empty too; swap, add and cas count as a read and as a write.
The lines of a scenario: bakerystore help replay
The lines of a record: docs/RECORDS.md
The lines of a trace: examples/traces/README.md

  $ printf 'bakery 1\ncall 0 read a\nstep 0 3\n' | bakerystore calls - | cut -d, -f 1-6
  process,call,command,called,doorway,door_end
  0,1,read a,0,1,
";

/// The page of `judge`.
const JUDGE: &str = r"
Reads a record or a trace to its end, from any source. Prints `good` and the number of
entries; or `bad`, the first entry that breaks a law, and the law, with status 3. The
file's first word decides what it is judged by.

`trace`: a run of any lock on registers of its own. The laws, in order: `access`,
`memory`, `marks`, `together`, `overtaken`. The lines of a trace:
examples/traces/README.md

  $ printf 'trace 1\n0 : call\n0 : enter\n1 : call\n1 : enter\n' | bakerystore judge -
  bad 3 together

`record`: a run of this project's lock and store. The lines of a record: docs/RECORDS.md

  $ printf 'record 1\n0 : call read a\n0 0.choosing.0.0 write 1\n' | bakerystore judge -
  good 2

With --any-lock it judges the record of any lock on safe bits by its bits, its calls and
its critical section; no algorithm is assumed. The laws, in order: `safe`, `access`,
`marks`, `together`, `overtaken`, `history`. A trace is judged as without it. How to
write either file: docs/JUDGE_YOUR_LOCK.md

With --why reasons follow a `bad`, each if it applies:

  line N          the line of the file, skipped lines included
  is ENTRY        the entry
  may ENTRY       an entry that keeps all laws in its place: at most two such lines
  refused NAME    why the access or the mark is refused
  stage WORD      the stage of its process before it
  open K          an access is open since entry K: in traces, and with --any-lock
  torn K          a write is torn since entry K: with --any-lock
  inside Q K      `together`: process Q has been inside since entry K
  waits Q K       `overtaken`: Q is ahead, and has waited since entry K
  doorway K       `overtaken`: the process has been in its doorway since entry K

  $ printf 'record 1\n0 : call read a\n0 : enter\n' | bakerystore judge --any-lock --why -
  bad 1 marks
  line 3
  is 0 : enter
  refused not-waiting
  stage doorway
";

/// The page of `draw`.
const DRAW: &str = r"
Runs a scenario, as replay does, and writes its picture as one page for a browser, which
needs nothing else: a lane for each process with its marks and stages, above the one
history. The lines that replay prints can be read off it.
With --reads it also shows the reads that a write overlapped: from when to when, whose
bit, and what each returned; of those between two lines of the run the first three.
FILE may also be a record or a trace, good or bad, of any lock; its first word decides.
With --judge or --any-lock FILE is a record or a trace, and its picture ends with the
first bad entry. What judge --why, or judge --any-lock --why, prints follows, each line
in the lane of the process that it names, and the status is that of judge.
With --from N and --to M it shows the entries N to M alone (of a run, the events), both
included, by their numbers on the axis; N is 0 if left out, and M the end. At the left
edge are the stages, the bits or cells and the store as they are before entry N, and the
file is run, read and judged as a whole.
With at most 400 entries in the file, or from N to M, the picture of a record or of a
trace shows each access from its begin to its end, the writes that overlap it, what each
read gave, and the value of each bit or cell. Otherwise --accesses shows them, also of a
run, and those of all bits or cells (without it, of the first sixteen that are written);
--reads then shows nothing more, because the boxes of overlapped reads are marked.
--reads is refused for a trace.
What a picture shows: docs/PICTURE.md
The lines of a scenario: bakerystore help replay

  $ printf 'bakery 2\ncall 0 read a\n' | bakerystore draw - | grep -o '<title>[^<]*'
  <title>Run of 2 processes (bakery 2, tickets 4, stamps 4, slots 1)
  <title>0 0 call read a
  <title>end events 1 taken 0 refused 0
";

/// The page of `draw-svg`.
const DRAW_SVG: &str = r"
Writes the picture of a scenario's run, of a record, or of a trace, as one SVG without a
page around it. With --reads, --accesses, --judge, --any-lock, --from and --to it shows
what draw shows.
What a picture shows: docs/PICTURE.md
The lines of a scenario: bakerystore help replay

  $ printf 'bakery 2\ncall 0 read a\n' | bakerystore draw-svg - | grep -o '<title>[^<]*'
  <title>0 0 call read a
  <title>end events 1 taken 0 refused 0
";
