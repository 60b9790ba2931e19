//! The scenarios of the worked runs, as examples/worked has them.

pub const ASK_AFTER_LOST_CUT_CALL: &str =
    "bakery 2\nprocesses 1\ntickets 2\nstamps 2\nopen a c:5\ncall 0 write a c:6\nstep 0 819\n\
    fail 0\ngo 0 down\nrestart 0\ncall 0 ask\ngo 0 idle\nshow\n";

pub const ASK_AFTER_TAKEN_CUT_CALL: &str =
    "bakery 2\nprocesses 1\ntickets 2\nstamps 2\nopen a c:5\ncall 0 write a c:6\nstep 0 819\n\
    fail 0\nflick 1\ngo 0 down\nrestart 0\ncall 0 ask\ngo 0 idle\nshow\n";

pub const ASK_IN_ONE_THREAD_STORE: &str =
    "bakery 2\nopen a c:1\ncall 1 write a c:5\ncall 0 add a 0\ncall 0 ask\ncall 1 ask\n\
    call 0 cas a c:5 t:x\ncall 0 ask\ncall 1 ask\nshow\n";

pub const ASK_IN_TURNS: &str =
    "bakery 2\nopen a c:1\ncall 1 write a c:5\ngo 1 idle\ncall 0 add a 0\ngo 0 idle\ncall 0 ask\n\
    go 0 idle\ncall 1 ask\ngo 1 idle\ncall 0 cas a c:5 t:x\ngo 0 idle\ncall 0 ask\ngo 0 idle\n\
    call 1 ask\ngo 1 idle\nshow\n";

pub const COMMENTS_AND_SPACES: &str = "bakery 1\n# x\nslots 2\n  call 0  add a -3\n";

pub const FAILURE_COMMIT_SETTLED_NEW: &str =
    "bakery 1\ntickets 2\nstamps 2\ncall 0 write a c:5\nstep 0 1152\nfail 0\nflick 1\ngo 0 down\n\
    call 1 read a\ngo 1 idle\n";

pub const FAILURE_COMMIT_SETTLED_OLD: &str =
    "bakery 1\ntickets 2\nstamps 2\ncall 0 write a c:5\nstep 0 1153\nfail 0\ngo 0 down\n\
    call 1 read a\ngo 1 idle\nrestart 0\ncall 0 read a\ngo 0 idle\n";

pub const FAILURE_WITHIN_IMAGE: &str =
    "bakery 1\nprocesses 1\ntickets 2\nstamps 2\ncall 0 write a c:5\ngo 0 idle\n\
    call 0 write a c:6\nstep 0 483\nfail 0\nflick 1\ngo 0 down\nrestart 0\ncall 0 write a c:6\n\
    go 0 idle\nshow\n";

pub const FLICKERING_TICKET: &str =
    "bakery 1\ntickets 2\nstamps 2\ncall 0 read a\ngo 0 wait\nwithdraw 0\ncall 1 read a\n\
    step 1 4\nstep 0 3\nflick 1\nstep 1 2\nstep 0 4\nstep 1 2\nstep 1 4\nstep 0 1\n";

pub const GREATEST_STAMP: &str =
    "bakery 1\nprocesses 1\ntickets 2\nstamps 1\ncall 0 write a c:5\ngo 0 idle\n\
    call 0 write a c:6\ngo 0 idle\nshow\n";

pub const ONE_PROCESS_WANDER: &str =
    "bakery 1\nprocesses 1\ntickets 2\nstamps 2\ncall 0 read a\nflick pcg 7\nwander 1000\n";

pub const LONE_WRITE: &str =
    "bakery 1\nprocesses 1\ntickets 2\nstamps 2\ncall 0 write a c:5\ngo 0 idle\nshow\n";

pub const ONE_PROCESS_WRITE_AND_READ: &str =
    "bakery 1\nprocesses 1\ntickets 2\nstamps 2\ncall 0 write a c:5\ngo 0 idle\ncall 0 read a\n\
    go 0 idle\n";

pub const ONE_THREAD_STORE: &str =
    "bakery 1\ncall 0 add a 1\ncall 0 write a c:9223372036854775807\ncall 0 add a 1\n\
    call 0 read a\ncall 0 write b t:x\ncall 0 cas b c:1 c:2\ncall 0 cas a c:1 c:2\n\
    call 0 cas a c:9223372036854775807 t:hi\ncall 0 add a 1\ncall 9 read a\nshow\n";

pub const ONE_THREAD_STORE_WITH_GO: &str =
    "bakery 1\ncall 0 add a 1\ngo 0 idle\ncall 0 write a c:9223372036854775807\ngo 0 idle\n\
    call 0 add a 1\ngo 0 idle\ncall 0 read a\ngo 0 idle\ncall 0 write b t:x\ngo 0 idle\n\
    call 0 cas b c:1 c:2\ngo 0 idle\ncall 0 cas a c:1 c:2\ngo 0 idle\n\
    call 0 cas a c:9223372036854775807 t:hi\ngo 0 idle\ncall 0 add a 1\ngo 0 idle\n\
    call 9 read a\nshow\n";

pub const OTHER_REFUSALS: &str =
    "bakery 1\ncall 0 read a\ncall 0 read a\nstep 1 1\nfail 1\nfail 1\nwithdraw 1\ngo 1 down\n";

pub const RESTART_OF_FAILED_PROCESS: &str =
    "bakery 1\nprocesses 1\ncall 0 read a\nfail 0\nrestart 0\ncall 0 read a\ngo 0 down\n\
    call 0 read a\nrestart 0\n";

pub const SHOW_WITHOUT_LINE_END: &str = "bakery 1\nshow";

pub const SIXTEEN_PROCESSES_READ: &str =
    "bakery 2\nprocesses 16\ntickets 32\nstamps 32\ncall 15 read a\ngo 15 idle\n";

pub const SLOW_READ_OF_CHOOSING: &str =
    "bakery 1\ntickets 2\nstamps 2\ncall 0 read a\ncall 1 read a\nstep 0 8\nstep 1 20\nstep 1 1\n\
    go 0 idle\ncall 0 read a\nstep 0 4\nflick 0\nstep 1 1\nstep 1 4\ngo 0 wait\nstep 0 6\n\
    go 1 idle\ngo 0 idle\n";

pub const STEP_OF_NO_PROCESS: &str = "bakery 1\nstep 9 1\n";

pub const TICKETS_FULL: &str =
    "bakery 1\ntickets 1\nstamps 2\ncall 0 read a\nstep 0 14\ncall 1 read a\ngo 1 idle\n\
    go 0 idle\n";

pub const TIE_OF_TICKETS: &str =
    "bakery 1\ntickets 2\nstamps 2\ncall 0 write a c:5\ncall 1 write a c:7\nstep 0 8\nstep 1 8\n\
    step 0 12\nstep 1 12\nstep 1 6\nstep 0 6\nstep 1 4\n";

pub const TIE_OF_TICKETS_WAITING_TOO_LONG: &str =
    "bakery 1\ntickets 2\nstamps 2\ncall 0 write a c:5\ncall 1 write a c:7\nstep 0 8\nstep 1 8\n\
    step 0 12\nstep 1 12\nstep 1 6\nstep 0 6\nstep 1 4\ngo 1 inside\n";

pub const TWO_PROCESSES_WANDER: &str =
    "bakery 1\ncall 0 write a c:5\ncall 1 add a 3\nflick pcg 1\nwander 5000\n";

pub const WITHDRAWAL: &str =
    "bakery 1\ntickets 2\nstamps 2\ncall 0 read a\ngo 0 wait\ncall 1 read a\ngo 1 wait\n\
    step 0 1\nwithdraw 0\ngo 0 idle\ngo 1 inside\nwithdraw 1\n";

pub const WITHDRAWAL_SHOW_WHILE_INSIDE: &str =
    "bakery 1\ntickets 2\nstamps 2\ncall 0 read a\ngo 0 wait\ncall 1 read a\ngo 1 wait\n\
    step 0 1\nwithdraw 0\ngo 0 idle\ngo 1 inside\nshow\nwithdraw 1\n";

pub const SCENARIOS: [&str; 27] = [
    ASK_AFTER_LOST_CUT_CALL,
    ASK_AFTER_TAKEN_CUT_CALL,
    ASK_IN_ONE_THREAD_STORE,
    ASK_IN_TURNS,
    COMMENTS_AND_SPACES,
    FAILURE_COMMIT_SETTLED_NEW,
    FAILURE_COMMIT_SETTLED_OLD,
    FAILURE_WITHIN_IMAGE,
    FLICKERING_TICKET,
    GREATEST_STAMP,
    ONE_PROCESS_WANDER,
    LONE_WRITE,
    ONE_PROCESS_WRITE_AND_READ,
    ONE_THREAD_STORE,
    ONE_THREAD_STORE_WITH_GO,
    OTHER_REFUSALS,
    RESTART_OF_FAILED_PROCESS,
    SHOW_WITHOUT_LINE_END,
    SIXTEEN_PROCESSES_READ,
    SLOW_READ_OF_CHOOSING,
    STEP_OF_NO_PROCESS,
    TICKETS_FULL,
    TIE_OF_TICKETS,
    TIE_OF_TICKETS_WAITING_TOO_LONG,
    TWO_PROCESSES_WANDER,
    WITHDRAWAL,
    WITHDRAWAL_SHOW_WHILE_INSIDE,
];
