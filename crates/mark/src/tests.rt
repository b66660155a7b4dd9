// Short tapes with the lines that are due for them, reckoned from the rules.
// A case is its name, the tape in hexadecimal, and the lines. A blank line parts it from the next.
use crate::marking::mark;
use flow::code::Code;
use flow::limits::{LEAST_SCRATCH, LEAST_TEXT, MOST_MARKS};
use flow::prefix::Prefix;
use flow::refusal::Refusal;
use meter::record::Record;
use semi::SemiOrdered;
use sitting::sitting::Sitting;
use std::alloc::{AllocError, Global};
use std::process::Abort;
use std::str;
use std::test::Fail;

// The lengths of the areas that a tape is marked with.
#[derive(Clone, Copy)]
struct Areas {
    text: usize,
    scratch: usize,
    table: usize,
}

// Areas that suffice for every tape.
const AMPLE: Areas = Areas {
    text: LEAST_TEXT,
    scratch: LEAST_SCRATCH,
    table: MOST_MARKS,
};

// Most tapes have the plan of 3 places, step 1, greatest weight 10, and a window of 4 packets in 2 blocks.
// Its unit is 20: the least level is 60, and the level behind the plan is 80.

// The sample, over each kind of key and of counter.
const SAMPLE: &str = "\
prefixes over a semi-ordered counter
tape 0101 010003000000010000000A000000040002 020A000000080000000A 020A000000080000000A 030A00000008 06000000000000003C 04 020A000000080000000B 08
open
took 0
took 0
est 60
level 60
list 1
flow 8 167772160 60
no 10 55
closed 2 20

prefixes over a shared-deduction counter
tape 0102 010003000000010000000A000000040002 020A000000080000000A 020A000000080000000A 030A00000008 06000000000000003C 04 020A000000080000000B 08
open
took 0
took 0
est 60
level 60
list 1
flow 8 167772160 60
no 10 55
closed 2 20

accounts over a semi-ordered counter
tape 0201 010003000000010000000A000000040002 02303030303030303034320000000A 02303030303030303034320000000A 0330303030303030303432 06000000000000003C 04 02303030303030303034320000000B 08
open
took 0
took 0
est 60
level 60
list 1
flow 0 42 60
no 10 70
closed 2 20

accounts over a shared-deduction counter
tape 0202 010003000000010000000A000000040002 02303030303030303034320000000A 02303030303030303034320000000A 0330303030303030303432 06000000000000003C 04 02303030303030303034320000000B 08
open
took 0
took 0
est 60
level 60
list 1
flow 0 42 60
no 10 70
closed 2 20";

// Kind bytes.
const KINDS: &str = "\
an empty tape
tape
no 16 0
broken 0 0

prefixes, and the tape ends
tape 01
no 16 1
broken 0 0

accounts, and the tape ends
tape 02
no 16 1
broken 0 0

a byte that names no kind of key
tape 07
no 15 0
broken 0 0

the byte 00 names no kind of key
tape 0001 010003000000010000000A000000040002 08
no 15 0
broken 0 0

no kind of key is the number 3
tape 0301 010003000000010000000A000000040002 08
no 15 0
broken 0 0

both kinds unknown: the first is judged first
tape 0303
no 15 0
broken 0 0

the byte 00 names no kind of counter
tape 0100 010003000000010000000A000000040002 08
no 15 1
broken 0 0

no kind of counter is the number 3
tape 0203 010003000000010000000A000000040002 08
no 15 1
broken 0 0

a kind of counter unknown, and the tape ends
tape 01FF
no 15 1
broken 0 0

the kinds alone, 1 and 1
tape 0101
no 16 2
broken 0 0

the kinds alone, 1 and 2
tape 0102
no 16 2
broken 0 0

the kinds alone, 2 and 1
tape 0201
no 16 2
broken 0 0

the kinds alone, 2 and 2
tape 0202
no 16 2
broken 0 0";

// Each state against each command byte.
const STATES: &str = "\
unplanned: 02 to 08 are not taken, and 00 is no command
tape 0101 020A000000080000000A 030A00000008 04 05 06000000000000003C 07000000000000003C 08 00 010003000000010000000A000000040002
no 17 2
no 17 12
no 17 18
no 17 19
no 17 20
no 17 29
no 17 38
no 15 39
broken 0 0

unplanned, over accounts
tape 0202 02303030303030303034320000000A 0330303030303030303432 04 05 06000000000000003C 07000000000000003C 08 00 010003000000010000000A000000040002
no 17 2
no 17 17
no 17 28
no 17 29
no 17 30
no 17 39
no 17 48
no 15 49
broken 0 0

unplanned: 09 is no command
tape 0101 09 08
no 15 2
broken 0 0

unplanned: FF is no command
tape 0101 FF 010003000000010000000A000000040002
no 15 2
broken 0 0

unplanned: 01 is taken
tape 0101 010003000000010000000A000000040002 08
open
closed 0 0

planned: 01 is not taken, 02 to 08 are
tape 0101 010003000000010000000A000000040002 010003000000010000000A000000040002 020A000000080000000A 030A00000008 04 05 06000000000000003C 07000000000000003C 08
open
no 17 19
took 0
est 50
list 0
restart
level 60
trial 60 0
closed 1 10

planned: 00 is no command
tape 0101 010003000000010000000A000000040002 00 08
open
no 15 19
broken 0 0

planned: 09 is no command
tape 0101 010003000000010000000A000000040002 020A000000080000000A 09 08
open
took 0
no 15 29
broken 1 10

planned: FF is no command
tape 0101 010003000000010000000A000000040002 FF 08
open
no 15 19
broken 0 0

done by a close: nothing behind it is read
tape 0101 010003000000010000000A000000040002 08 010003000000010000000A000000040002 020A000000080000000A 030A00000008 04 05 06000000000000003C 07000000000000003C 08 00 09 FF
open
closed 0 0

done by 15: nothing behind it is read
tape 0101 00 010003000000010000000A000000040002 020A000000080000000A 030A00000008 04 05 06000000000000003C 07000000000000003C 08 00 09 FF
no 15 2
broken 0 0

done by 16: bytes of a plan cut off are no commands
tape 0101 01 08 04 08
no 16 2
broken 0 0

a close before the plan is not taken, the one behind it is
tape 0101 08 010003000000010000000A000000040002 08
no 17 2
open
closed 0 0";

// Tapes that are cut off.
const CUT: &str = "\
no close
tape 0101 010003000000010000000A000000040002
open
no 16 19
broken 0 0

no close behind a packet
tape 0101 010003000000010000000A000000040002 020A000000080000000A
open
took 0
no 16 29
broken 1 10

a plan of its first byte alone
tape 0101 01
no 16 2
broken 0 0

a plan without its last byte
tape 0101 010003000000010000000A0000000400
no 16 2
broken 0 0

a second plan cut off: 16 is judged before 17
tape 0101 010003000000010000000A000000040002 010003000000010000000A0000000400
open
no 16 19
broken 0 0

a packet before the plan cut off: 16 is judged before 17
tape 0101 0221
no 16 2
broken 0 0

a packet cut off in its key
tape 0101 010003000000010000000A000000040002 020A0000
open
no 16 19
broken 0 0

a packet cut off behind its key, which is none: 16 is judged before 14
tape 0101 010003000000010000000A000000040002 020A00000108
open
no 16 19
broken 0 0

a packet without the last byte of its weight
tape 0101 010003000000010000000A000000040002 020A00000008000000
open
no 16 19
broken 0 0

an estimate cut off
tape 0101 010003000000010000000A000000040002 030A000000
open
no 16 19
broken 0 0

an estimate of an account cut off
tape 0201 010003000000010000000A000000040002 03 303030303030303034
open
no 16 19
broken 0 0

a level cut off
tape 0101 010003000000010000000A000000040002 0600000000000000
open
no 16 19
broken 0 0

a trial list cut off
tape 0101 010003000000010000000A000000040002 07
open
no 16 19
broken 0 0";

// Plans.
const PLANS: &str = "\
1, with each place on the tape
tape 0101 010000000000010000000A000000040002 010101000000010000000A000000040002 010003000000010000000A000000040002 08
no 1 2
no 1 19
open
closed 0 0

2, over a semi-ordered counter, and its greatest step
tape 0101 0101000000000000100000000000040001 0101000020000200100000000000040001 0101000020000100100000000000040001 08
no 2 2
no 2 19
open
closed 0 0

2, over a shared-deduction counter
tape 0102 010003000000020000000A000000040002 010003000000010000000A000000040002 08
no 2 2
open
closed 0 0

5
tape 0101 0100030000000100000000000000040002 0100030000000100100001000000040002 010003000000010000000A000000040002 08
no 5 2
no 5 19
open
closed 0 0

6
tape 0101 010003000000010000000A000000000002 010003000000010000000A010000010001 010003000000010000000A010000000002 08
no 6 2
no 6 19
open
closed 0 0

7
tape 0101 010003000000010000000A000000040000 010003000000010000000A0000000A0004 010003000000010000000A000000040002 08
no 7 2
no 7 19
open
closed 0 0

8 at step 6, and step 5 is taken
tape 0101 010003000000060000000A000000040002 010003000000050000000A000000040002 08
no 8 2
open
closed 0 0

the order of 1, 2, 5, 6 and 7
tape 0101 0100000000000000000000000000000000 0100030000000000000000000000000000 0100030000000100000000000000000000 010003000000010000000A000000000000 010003000000060000000A000000040000 08
no 1 2
no 2 19
no 5 36
no 6 53
no 7 70
no 17 87
no 16 88
broken 0 0

a plan beside a plan: 17 is judged before its numbers
tape 0101 010003000000010000000A000000040002 0100000000000000000000000000000000 08
open
no 17 19
closed 0 0";

// Packets.
const PACKETS: &str = "\
9 and 10
tape 0101 010003000000010000000A000000040002 020A0000000800000000 020A000000080000000B 020A00000008FFFFFFFF 020A000000080000000A 08
open
no 9 19
no 10 29
no 10 39
took 0
closed 1 10

the greatest weight of all, where the plan has it
tape 0101 0100020000000100100000000000010001 020A0000000800100000 020A0000000800100001 030A00000008 060000000000300000 04 08
open
took 0
no 10 29
est 3145728
level 3145728
list 1
flow 8 167772160 3145728
closed 1 1048576

a refused packet does not move the window
tape 0101 010003000000010000000A000000040002 020A000000080000000A 020A000000080000000A 020A000000080000000A 020A0000000800000000 020A000000080000000B 030A00000008 020A000000080000000A 030A00000008 08
open
took 0
took 0
took 0
no 9 49
no 10 59
est 70
took 0
est 80
closed 4 40

17 is judged before 14, 14 before 9
tape 0101 020A0000010800000000 010003000000010000000A000000040002 020A0000010800000000 020A0000000800000000 08
no 17 2
open
no 14 29
no 9 39
closed 0 0";

// Keys.
const KEYS: &str = "\
prefixes at their limits
tape 0101 010003000000010000000A000000040002 030000000000 03FFFFFFFF20 030000000020 038000000001 03FFFFFFFE1F 08
open
est 40
est 40
est 40
est 40
est 40
closed 0 0

prefixes of more than 32 bits
tape 0101 010003000000010000000A000000040002 030000000021 0300000000FF 08
open
no 14 19
no 14 25
closed 0 0

address bits beyond the length
tape 0101 010003000000010000000A000000040002 030A00000108 038000000000 030000000100 03FFFFFFFF1F 030A80000008 08
open
no 14 19
no 14 25
no 14 31
no 14 37
no 14 43
closed 0 0

a packet and an estimate of no prefix
tape 0102 010003000000010000000A000000040002 020A000001080000000A 030A00000108 030A00000008 08
open
no 14 19
no 14 29
est 40
closed 0 0

10.0.0.0/8 and 10.0.0.0/9 are two flows
tape 0101 010003000000010000000A000000040002 020A000000080000000A 030A00000008 030A00000009 08
open
took 0
est 50
est 40
closed 1 10

accounts at their limits
tape 0201 010003000000010000000A000000040002 02303030303030303030300000000A 02393939393939393939390000000A 02393939393939393939390000000A 0330303030303030303030 06000000000000003C 04 08
open
took 0
took 0
took 0
est 50
level 60
list 1
flow 0 9999999999 60
closed 3 30

bytes beside the digits
tape 0201 010003000000010000000A000000040002 032F303030303030303030 033030303030303030303A 0320202020202020202020 02303030303041303030300000000A 08
open
no 14 19
no 14 30
no 14 41
no 14 52
closed 0 0";

// Levels, lists and trial lists. A 10 twice makes a mark of A and an estimate of 60.
const LEVELS: &str = "\
the level behind a plan is four times the unit
tape 0101 010003000000010000000A000000040002 020A000000080000000A 020A000000080000000A 020A000000080000000A 04 020A000000080000000A 04 08
open
took 0
took 0
took 0
list 0
took 0
list 1
flow 8 167772160 80
closed 4 40

11 at one below three times the unit
tape 0101 010003000000010000000A000000040002 020A000000080000000A 020A000000080000000A 06000000000000003B 04 06000000000000003C 04 08
open
took 0
took 0
no 11 39
list 0
level 60
list 1
flow 8 167772160 60
closed 2 20

a refused level leaves the one before
tape 0101 010003000000010000000A000000040002 020A000000080000000A 020A000000080000000A 06000000000000003C 06000000000000003B 04 060000000000000000 04 06000000000000003D 04 08
open
took 0
took 0
level 60
no 11 48
list 1
flow 8 167772160 60
no 11 58
list 1
flow 8 167772160 60
level 61
list 0
closed 2 20

the greatest level
tape 0101 010003000000010000000A000000040002 020A000000080000000A 020A000000080000000A 06FFFFFFFFFFFFFFFF 04 07FFFFFFFFFFFFFFFF 08
open
took 0
took 0
level 18446744073709551615
list 0
trial 18446744073709551615 0
closed 2 20

a trial list leaves the level
tape 0101 010003000000010000000A000000040002 020A000000080000000A 020A000000080000000A 04 07000000000000003C 04 08
open
took 0
took 0
list 0
trial 60 1
flow 8 167772160 60
list 0
closed 2 20

a trial list refused with 11 leaves the level
tape 0101 010003000000010000000A000000040002 020A000000080000000A 020A000000080000000A 06000000000000003C 07000000000000003B 04 07000000000000003D 04 08
open
took 0
took 0
level 60
no 11 48
list 1
flow 8 167772160 60
trial 61 0
list 1
flow 8 167772160 60
closed 2 20

a restart keeps the level, the packets and their volume
tape 0101 010003000000010000000A000000040002 020A000000080000000A 020A000000080000000A 06000000000000003C 05 030A00000008 04 020A000000080000000A 020A000000080000000A 04 08
open
took 0
took 0
level 60
restart
est 40
list 0
took 0
took 0
list 1
flow 8 167772160 60
closed 4 40

a restart behind three packets: the next two are of one frame
tape 0101 010003000000010000000A000000040002 020A000000080000000A 020A000000080000000A 020A000000080000000A 05 020A000000080000000A 020A000000080000000A 030A00000008 08
open
took 0
took 0
took 0
restart
took 0
took 0
est 60
closed 5 50

flows in the order of their oldest marks
tape 0101 010003000000010000000A000000040002 02C0A80700180000000A 020A000000080000000A 02C0A80700180000000A 020A000000080000000A 06000000000000003C 04 08
open
took 0
took 0
took 0
took 0
level 60
list 2
flow 24 3232237312 60
flow 8 167772160 60
closed 4 40";

// Frames, marks, and the counters below them.
const FRAMES: &str = "\
three frames over a semi-ordered counter
tape 0101 010003000000010000000A000000040002 06000000000000003C 020A000000080000000A 02C0A80700180000000A 020A000000080000000A 02C0A80700180000000A 020A000000080000000A 020A000000080000000A 04 020A000000080000000B 02C0A807001800000006 04 02000000000000000003 03C0A8070018 03FFFFFFFF20 02C0A807001800000004 030A00000008 02000000000000000006 020A0000000800000009 02FFFFFFFF200000000A 030A00000008 03C0A8070018 030000000000 03FFFFFFFF20 04 08
open
level 60
took 0
took 0
took 0
took 0
took 0
took 0
list 2
flow 8 167772160 80
flow 24 3232237312 60
no 10 89
took 0
list 2
flow 24 3232237312 66
flow 8 167772160 60
took 0
est 46
est 43
took 0
est 40
took 1
took 2
took 2
est 49
est 46
est 46
est 54
list 0
closed 12 98

the same packets over a shared-deduction counter
tape 0102 010003000000010000000A000000040002 06000000000000003C 020A000000080000000A 02C0A80700180000000A 020A000000080000000A 02C0A80700180000000A 020A000000080000000A 020A000000080000000A 04 020A000000080000000B 02C0A807001800000006 04 02000000000000000003 03C0A8070018 03FFFFFFFF20 02C0A807001800000004 030A00000008 02000000000000000006 020A0000000800000009 02FFFFFFFF200000000A 030A00000008 03C0A8070018 030000000000 03FFFFFFFF20 04 08
open
level 60
took 0
took 0
took 0
took 0
took 0
took 0
list 2
flow 8 167772160 80
flow 24 3232237312 60
no 10 89
took 0
list 2
flow 24 3232237312 66
flow 8 167772160 60
took 0
est 46
est 40
took 0
est 40
took 0
took 0
took 3
est 49
est 44
est 46
est 50
list 0
closed 12 98

four packets of a flow, then the frame turns
tape 0101 010003000000010000000A000000040002 020A000000080000000A 030A00000008 020A000000080000000A 030A00000008 020A000000080000000A 030A00000008 020A000000080000000A 030A00000008 02C0A80700180000000A 030A00000008 03C0A8070018 06000000000000003C 04 06000000000000003D 04 08
open
took 0
est 50
took 0
est 60
took 0
est 70
took 0
est 80
took 0
est 60
est 50
level 60
list 1
flow 8 167772160 60
level 61
list 0
closed 5 50

passes, and a flow that left the line
tape 0101 0100020000000A0000001E000000040001 020A0000000800000007 02C0A807001800000019 030000000000 02000000000000000003 030A00000008 0200000000000000001E 030000000000 030A00000008 08
open
took 0
took 0
est 249
took 0
est 259
took 1
est 282
est 269
closed 4 65

passes of a shared deduction
tape 0102 010002000000010000000A000000040001 020A0000000800000005 02C0A807001800000003 02000000000000000004 030A00000008 03C0A8070018 030000000000 02FFFFFFFF2000000001 030A00000008 03C0A8070018 03FFFFFFFF20 08
open
took 0
took 0
took 2
est 85
est 83
est 84
took 2
est 85
est 84
est 84
closed 4 13

a mark of a flow on a full line
tape 0101 010003000000010000000A000000040002 020A000000080000000A 02C0A80700180000000A 0200000000000000000A 02FFFFFFFF200000000A 03FFFFFFFF20 06000000000000003C 04 08
open
took 0
took 0
took 0
took 0
est 60
level 60
list 1
flow 32 4294967295 60
closed 4 40

a window of one packet: each flushes the counter
tape 0101 010002000000010000000A000000010001 020A000000080000000A 030A00000008 02C0A80700180000000A 030A00000008 03C0A8070018 06000000000000001E 04 08
open
took 0
est 30
took 0
est 20
est 30
level 30
list 1
flow 24 3232237312 30
closed 2 20";

// The cases, with the areas that are lent for them: ample ones, and others that are enough for some tapes and not for others.
const TAPES: [(Areas, &str); 16] = [
    (AMPLE, SAMPLE),
    (AMPLE, KINDS),
    (AMPLE, STATES),
    (AMPLE, CUT),
    (AMPLE, PLANS),
    (AMPLE, PACKETS),
    (AMPLE, KEYS),
    (AMPLE, LEVELS),
    (AMPLE, FRAMES),
    (
        Areas {
            text: 40_960,
            scratch: 510,
            table: 1,
        },
        "\
just enough of each
tape 0101 010003000000010000000A000000040002 020A000000080000000A 020A000000080000000A 07000000000000003C 08
open
took 0
took 0
trial 60 1
flow 8 167772160 60
closed 2 20

a table of one record, and a list of two
tape 0101 010003000000010000000A000000040002 02C0A80700180000000A 020A000000080000000A 02C0A80700180000000A 020A000000080000000A 07000000000000003C 04 07000000000000003D 04 08
open
took 0
took 0
took 0
took 0
no 13 59
list 0
trial 61 0
list 0
closed 4 40",
    ),
    (
        Areas {
            text: 0,
            scratch: 510,
            table: 510,
        },
        "\
no text area
tape 0101 010003000000010000000A000000040002 08
broken 0 0",
    ),
    (
        Areas {
            text: 40_959,
            scratch: 510,
            table: 510,
        },
        "\
a text area of a byte less: nothing is read
tape 0101 010003000000010000000A000000040002 08
broken 0 0

18 is judged before 15 and 16
tape 0701
broken 0 0",
    ),
    (
        Areas {
            text: 40_960,
            scratch: 509,
            table: 510,
        },
        "\
a scratch of a byte less
tape 0101 010003000000010000000A000000040002 020A000000080000000A 020A000000080000000A 04 07000000000000003C 06000000000000003C 04 030A00000008 08
open
took 0
took 0
no 12 39
no 12 40
level 60
no 12 58
est 60
closed 2 20",
    ),
    (
        Areas {
            text: 40_960,
            scratch: 0,
            table: 0,
        },
        "\
no scratch: 17 and 11 are judged before 12, 12 before 13
tape 0101 04 07000000000000003C 010003000000010000000A000000040002 020A000000080000000A 020A000000080000000A 07000000000000003B 07000000000000003C 08
no 17 2
no 17 3
open
took 0
took 0
no 11 49
no 12 58
closed 2 20",
    ),
    (
        Areas {
            text: 40_960,
            scratch: 510,
            table: 0,
        },
        "\
no table, and a list of one
tape 0101 010003000000010000000A000000040002 020A000000080000000A 020A000000080000000A 04 07000000000000003C 04 06000000000000003C 04 07000000000000003D 04 08
open
took 0
took 0
list 0
no 13 40
list 0
level 60
no 13 59
trial 61 0
no 13 69
closed 2 20",
    ),
    (
        Areas {
            text: 40_960,
            scratch: 510,
            table: 2,
        },
        "\
a table of two records, and a list of two
tape 0101 010003000000010000000A000000040002 02C0A80700180000000A 020A000000080000000A 02C0A80700180000000A 020A000000080000000A 07000000000000003C 08
open
took 0
took 0
took 0
took 0
trial 60 2
flow 24 3232237312 60
flow 8 167772160 60
closed 4 40",
    ),
];

// The value of a hexadecimal digit, if this byte is one.
fn digit(byte: u8) -> Option<u8> {
    match byte {
        b'0'..=b'9' => Some(byte - b'0'),
        b'A'..=b'F' => Some(byte - b'A' + 10),
        _ => None,
    }
}

// The bytes that pairs of digits write, whatever stands between them.
fn bytes_of(heap: Global, digits: &str) -> Result<Vec<u8>, AllocError> {
    let mut bytes = Vec::new(heap);
    let mut high = None;
    for value in digits.bytes().filter_map(digit) {
        match high {
            None => high = Some(value),
            Some(first) => {
                bytes.push((first << 4) | value)?;
                high = None;
            }
        }
    }
    Ok(bytes)
}

// The lines of a tape that is marked with areas of these lengths.
fn lines_of(heap: Global, tape: &[u8], areas: Areas) -> Result<Vec<u8>, AllocError> {
    let mut text = vec![in heap; 0; areas.text]?;
    let mut scratch = vec![in heap; 0; areas.scratch]?;
    let mut table = vec![in heap; Record::default(); areas.table]?;
    mark(heap, tape, &mut text, &mut scratch, &mut table)
}

// Marks the tape of a case, and compares its lines.
fn mark_case(rt: &impl Abort, heap: Global, areas: Areas, case: &str) -> Result<(), Fail> {
    let (name, rest) = case.split_once("\ntape").ok_or("no tape")?;
    let (tape, lines) = rest.split_once('\n').ok_or("no lines")?;
    let marked = lines_of(heap, &bytes_of(heap, tape)?, areas)?;
    let due = format!(in heap; "{lines}\n")?;
    assert_eq!(rt; str::from_utf8(&marked)?, due.as_str(), "{name}");
    Ok(())
}

// Marks each case, and answers how many there are.
fn mark_cases(rt: &impl Abort, heap: Global, areas: Areas, cases: &str) -> Result<u32, Fail> {
    let mut count = 0u32;
    for case in cases.split("\n\n") {
        mark_case(rt, heap, areas, case)?;
        count = count.saturating_add(1);
    }
    Ok(count)
}

#[test]
fn tapes_are_marked(rt: HostRuntime) -> Result<(), Fail> {
    let heap = rt.alloc();
    let mut count = 0u32;
    for (areas, cases) in TAPES {
        count = count.saturating_add(mark_cases(&rt, heap, areas, cases)?);
    }
    assert_eq!(rt; count, 89);
    Ok(())
}

// The greatest length of a tape, and a byte more: where the length is right, the first byte names no kind.
#[test]
fn the_longest_tape_is_read(rt: HostRuntime) -> Result<(), Fail> {
    let heap = rt.alloc();
    for (length, due) in [
        (65_536, "no 15 0\nbroken 0 0\n"),
        (65_537, "no 19 0\nbroken 0 0\n"),
    ] {
        let tape = vec![in heap; 0; length]?;
        let marked = lines_of(heap, &tape, AMPLE)?;
        assert_eq!(rt; str::from_utf8(&marked)?, due);
    }
    Ok(())
}

// A command call: the tape and the lengths of the areas that are lent, and what is due: the lines or a refusal without one, and the records of a list that is made.
#[derive(Clone, Copy)]
struct Call {
    tape: &'static str,
    areas: Areas,
    answer: Result<&'static str, Refusal>,
    list: Option<&'static [Record]>,
}

// What stands in each place of the areas before a call.
const BYTE: u8 = b'.';

const RECORD: Record = Record {
    code: Code { high: 1, low: 2 },
    estimate: 3,
};

// The prefix 10.0.0.0/8 behind two packets of 10.
const LISTED: Record = Record {
    code: Code {
        high: 8,
        low: 167_772_160,
    },
    estimate: 60,
};

// The lines stand in front of the text area, which is as it was behind them.
fn look_at_text(
    rt: &impl Abort,
    call: &Call,
    answer: Result<usize, Refusal>,
    text: &[u8],
) -> Result<(), Fail> {
    let (lines, behind) = text
        .split_at_checked(answer.unwrap_or(0))
        .ok_or("too many lines")?;
    let answer = match answer {
        Ok(_) => Ok(str::from_utf8(lines)?),
        Err(refusal) => Err(refusal),
    };
    assert_eq!(rt; answer, call.answer);
    assert!(rt; behind.iter().all(|byte| *byte == BYTE));
    Ok(())
}

// A list clears the scratch and stands in front of the table. Any other call leaves both as they were.
fn look_at_list(rt: &impl Abort, call: &Call, scratch: &[u8], table: &[Record]) {
    let left = call.list.map_or(BYTE, |_| 0);
    assert!(rt; scratch.iter().all(|byte| *byte == left));
    let records = call.list.unwrap_or(&[]);
    assert!(rt; table.starts_with(records));
    assert!(rt;
        table
            .iter()
            .skip(records.len())
            .all(|record| *record == RECORD)
    );
}

// Makes a call with new areas, and looks at every place of them behind it.
fn make_call(
    rt: &impl Abort,
    heap: Global,
    sitting: &mut Sitting<Prefix, SemiOrdered>,
    call: &Call,
) -> Result<(), Fail> {
    let tape = bytes_of(heap, call.tape)?;
    let mut text = vec![in heap; BYTE; call.areas.text]?;
    let mut scratch = vec![in heap; BYTE; call.areas.scratch]?;
    let mut table = vec![in heap; RECORD; call.areas.table]?;
    let answer = sitting.command(&tape, &mut text, &mut scratch, &mut table);
    look_at_text(rt, call, answer, &text)?;
    look_at_list(rt, call, &scratch, &table);
    Ok(())
}

// Makes calls on a new sitting, and finishes it.
fn sit(rt: &impl Abort, heap: Global, calls: &[Call], last: &str) -> Result<(), Fail> {
    let (mut sitting, slip) = Sitting::<Prefix, SemiOrdered>::begin(SemiOrdered::new());
    let made = calls
        .iter()
        .try_for_each(|call| make_call(rt, heap, &mut sitting, call));
    let line = sitting.finish(slip);
    made?;
    assert_eq!(rt; str::from_utf8(&line)?, last);
    Ok(())
}

// A call with ample areas that makes no list.
const fn ample(tape: &'static str, lines: &'static str) -> Call {
    Call {
        tape,
        areas: AMPLE,
        answer: Ok(lines),
        list: None,
    }
}

// A call whose text area is of this length, and that is refused without a line.
const fn refused(tape: &'static str, text: usize, refusal: Refusal) -> Call {
    Call {
        tape,
        areas: Areas { text, ..AMPLE },
        answer: Err(refusal),
        list: None,
    }
}

// The tape of a plan alone, and the same with a close.
const PLANNED: &str = "0101 010003000000010000000A000000040002";

const CLOSED: &str = "0101 010003000000010000000A000000040002 08";

#[test]
fn a_sitting_reads_on_from_its_place(rt: HostRuntime) -> Result<(), Fail> {
    // Another tape is read from the place on.
    let other = "FFFF FFFFFFFFFFFFFFFFFFFFFFFFFFFFFFFFFF 020A000000080000000A 08";
    let calls = [
        ample(PLANNED, "open\n"),
        ample(other, "took 0\n"),
        ample(PLANNED, "no 16 29\n"),
    ];
    sit(&rt, rt.alloc(), &calls, "broken 1 10\n")?;
    // A refusal without a line touches nothing. The text area is looked at before the state.
    let calls = [
        refused(CLOSED, LEAST_TEXT - 1, Refusal::TextTooShort),
        ample(CLOSED, "open\n"),
        refused(CLOSED, LEAST_TEXT - 1, Refusal::TextTooShort),
        ample(CLOSED, ""),
        refused(CLOSED, LEAST_TEXT, Refusal::NotTakenNow),
        refused(CLOSED, LEAST_TEXT - 1, Refusal::TextTooShort),
    ];
    sit(&rt, rt.alloc(), &calls, "closed 0 0\n")
}

#[test]
fn a_refused_trial_list_leaves_the_level(rt: HostRuntime) -> Result<(), Fail> {
    let tape =
        "0101 010003000000010000000A000000040002 020A000000080000000A 020A000000080000000A 07000000000000003C 04 07000000000000003C 08";
    let short = Areas {
        scratch: LEAST_SCRATCH - 1,
        ..AMPLE
    };
    let calls = [
        ample(tape, "open\n"),
        ample(tape, "took 0\n"),
        ample(tape, "took 0\n"),
        Call {
            areas: short,
            ..ample(tape, "no 12 39\n")
        },
        // No flow reaches the standing level of 80.
        Call {
            list: Some(&[]),
            ..ample(tape, "list 0\n")
        },
        Call {
            list: Some(&[LISTED]),
            ..ample(tape, "trial 60 1\nflow 8 167772160 60\n")
        },
        ample(tape, ""),
    ];
    sit(&rt, rt.alloc(), &calls, "closed 2 20\n")
}
