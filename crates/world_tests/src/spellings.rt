// Commands and journal lines as texts: at the ends of their numbers' ranges, in the order of their fields, and texts that
// are no line.
use crate::printed::{is_command, is_line, is_no_line};
use std::alloc::AllocError;

// One text a line, here and below.
const COMMANDS: &str = "\
host 4096 ns
boot vm under 65534 blocks 4096
boot cokernel under 0 blocks 1 ns
proc 0 0 0
alloc 0 0 1 1
free 0 0 1 1
make 0 0 0 0 0000
remove 0 0 0
get 0 0 0 ro
release 0 0 0
attach 0 0 0 0 0 0
detach 0 0 0
exit 0 0
touch 0 0 0 r
touch 65534 4294967295 18446744073709551615 w
deliver 0 0 1
settle 0
kill 0 cut 0
stop 0
show maps 0 0
show link 0 0
alloc 1 2 3 4
deliver 1 2 3
show link 1 2
show maps 0 70000
attach 1 2 3 4 5 6
make 1 2 3 4 0640
boot cokernel under 65534 blocks 4096 ns
boot vm under 0 blocks 1 ns
";

const LINES: &str = "\
do pool 1
do pool 4096
do host 4096
do boot vm under 65534 blocks 4096 ns
do proc 65534 4294967295 4294967295
do alloc 65534 4294967295 16777215 4096
do free 65534 4294967295 16777215 4096
do make 65534 4294967295 18446744073709551615 18446744073709551615 0777
do remove 65534 4294967295 9223372036854775807
do get 65534 4294967295 9223372036854775807 rw
do release 65534 4294967295 9223372036854775807
do attach 65534 4294967295 9223372036854775807 18446744073709551615 18446744073709551615 18446744073709551615
do detach 65534 4294967295 18446744073709551615
do exit 65534 4294967295
do touch 65534 4294967295 18446744073709551615 r
do deliver 65534 65534 4294967295
do settle 4294967295
do kill 65534 cut 4294967295
do stop 65534
do show maps 65534 4294967295
do show routes 65534
do show pins 65534
do show link 65534 65534
refused NotReady
refused NoLink
born 65535 vm 65535 ns 65535
born 0 host 0 ns
told 65535 65535
admitted 65535
proc 65535 4294967295 4294967295 4294967295
alloc 65535 4294967295 4294967295 4294967295
alloc 0 0 0
free 65535 4294967295 4294967295 4294967295
touched 65535 4294967295 4294967295 4294967295
issue 65535 4294967295 4294967295
drew 65535 4294967295 9223372036854775807
named 65535 4294967295 9223372036854775807
unnamed 9223372036854775807
grant 65535 65535 4294967295 9223372036854775807 rw
deny 65535 65535 4294967295 NoLink
pin 65535 65535 4294967295
map 65535 4294967295 4294967295
unmap 65535 4294967295
unpin 65535 65535 4294967295
release 65535 4294967295
ungrant 65535 65535 4294967295
remove 65535 9223372036854775807
undo 65535 4294967295
closed 65535 4294967295
exit 65535 4294967295
answer 65535 4294967295 4294967295 segid 9223372036854775807
answer 65535 4294967295 4294967295 apid 9223372036854775807 pages 4294967295
answer 65535 4294967295 4294967295 addr 18446744073709551615
answer 65535 4294967295 4294967295 refused NoLink
took 65535 65535 4294967295
idle 65535 65535
got 65535 65535
end 65535 65535 4294967295
drop 65535
asked 65535 65535
way 65535 65535
back 65535 65535 65535
route 65535 65535 65535
gmap 65535 65535 65535 4294967295 4294967295
gdrop 65535 65535 4294967295
killed 65535 4294967295
stopped 65535
held 65535
heard 65535 65535
confirmed 65535 65535
unheld 65535
settled 4294967295
waiting 4294967295
page 65535 4294967295 4294967295 4294967295 rw
at 65535 way 65535
at 65535 way own
at 65535 way none
at 65535 route 65535 65535
at 65535 pin 65535 4294967295 9223372036854775807 4294967295 4294967295
block 65535 free
block 65535 lent 65535
block 65535 held 65535
name 9223372036854775807 65535
bytes 65535 65535 4294967295 ff
bytes 0 0 0 000102030405060708090a0b0c0d0e0f101112131415161718191a1b1c1d1e1f
sent 65535 65535 query 65535 65535 4294967295
sent 0 0 here 0 0 0
sent 0 0 namereq 0 65534 0
sent 0 0 named 0 0 0 9223372036854775807
sent 0 0 unname 0 0 0 0
sent 0 0 found 0 0 0 9223372036854775807 65534
sent 0 0 get 0 0 0 9223372036854775807 4294967295 4294967295 4294967295
sent 0 0 granted 0 0 0 4294967295
sent 0 0 getrefused 0 0 0 4294967295
sent 0 0 attachrefused 0 0 0 0
sent 0 0 release 0 0 0 9223372036854775807
sent 0 0 attach 0 0 0 9223372036854775807 4294967295 4294967295
sent 0 0 attached 0 0 0 0
sent 0 0 attached 0 0 0 1 4294967295
sent 0 0 detach 0 0 0
sent 0 0 died 0 0 0 65535
sent 0 0 dead 0 0 0 65535
sent 0 0 confirm 0 0 0 65535
do host 1 ns
do proc 65534 0 4294967295
do alloc 65534 7 16 2
do touch 65534 7 18446744073709551615 r
do touch 65534 7 10 w
born 65534 cokernel 0 - 0 4095
born 65534 vm 3 ns
admitted 65534
proc 65534 7 1 2
alloc 65534 7 16 262143 5
touched 65534 7 16 262143
do deliver 65534 3 4294967295
do show link 65534 3
sent 1 65534 query 1 65535 0
sent 1 65534 here 65535 65535 0
sent 1 65534 register 2 65535 0
sent 1 65534 admit 0 2 4294967295
took 1 65534 4294967295
idle 1 65534
got 1 65534
end 1 65534 0
end 1 65534 4294967295
drop 2
way 2 0
back 2 255 0
route 2 255 0
block 4095 free
block 0 lent 65534
block 17 held 3
told 65534 1
bytes 1 0 4294967295 0f
bytes 1 0 32 abababababababababababababababababababababababababababababababab
refused NoProcess
refused Busy
refused BadAlign
refused BadRange
refused NoSegment
refused Denied
refused NoPermit
refused OwnerDied
refused NoFrames
refused NoBlocks
refused TooLarge
refused NotOwner
refused NotMapped
refused NoEnclave
refused BadParent
refused NameServerHeld
refused NameServerTaken
refused TooMany
";

// The first of them is empty.
const NO_LINES: &str = "
 
 drop 0
drop 0 
drop  0
drop\t0
drop 0\r
drop
drop 0 0
drop 00
drop +0
drop -0
drop 0x0
drop a
drop é
drop 65536
DROP 0
dropped 0
# drop 0
do
do do pool 2
do pool
do pool 0
do pool 4097
do pool  2
do  pool 2
do # pool 2
do make 1 1 0 4096 640
do make 1 1 0 4096 01000
do show maps
do touch 0 1 0 x
refused
refused Refused
refused notready
refused 1
refused NotReady NoLink
born 0 host 0
born 0 guest 0 ns 0
born 0 host - ns 0
born 0 host 0 no 0
born 0 host 0 ns 65536
born 0 host 0 ns 00
told 0
admitted 65536
proc 0 4294967296 0 0
proc 0 1 2
alloc 0 1
alloc 0 1 16 4294967296
alloc 0 1 16 -
free 0 1 16 2 3
drew 0 1 9223372036854775808
named 0 1 -1
grant 0 1 1 1 r
grant 0 1 1 1 RO
deny 0 1 4
deny 0 1 4 Cause
map 1 2 4294967296
answer 0 1 1
answer 0 1 1 segid
answer 0 1 1 seg 1
answer 1 1 1 apid 1
answer 1 1 1 apid 1 page 3
answer 1 1 1 apid 1 pages
answer 1 1 2 addr 18446744073709551616
answer 1 1 4 refused
took 1 0
took 1 0 4294967296
end 1 0
at 0
at 0 way
at 0 way Own
at 0 way 65536
at 0 route 2
at 0 pin 1 3 1 1
at 0 ways 3
block 3
block 3 free 1
block 3 lent
block 65536 free
name 1
bytes 1 0 0
bytes 1 0 0 1
bytes 1 0 0 0g
bytes 1 0 0 FF
bytes 1 0 0 00 00
sent 1 0 query
sent 1 0 query 1 65535
sent 1 0 query 1 65535 0 0
sent 1 0 Query 1 65535 0
sent 1 0 question 1 65535 0
sent 1 0 query 65536 65535 0
sent 1 0 query 1 65536 0
sent 1 0 named 0 1 1
sent 1 0 found 0 1 1 1
sent 1 0 found 0 1 1 1 65536
sent 1 0 get 1 0 1 1 1 11
sent 1 0 getrefused 0 1 4
sent 1 0 getrefused 0 1 4 4294967296
sent 1 0 getrefused 0 1 4 NoLink
sent 1 0 attached 0 1 2
sent 1 0 attached 0 1 2 1
sent 1 0 attached 0 1 2 2 1
sent 1 0 attached 0 1 2 1 1 2
sent 1 0 died 0 65535 0
";

#[test]
fn texts_are_printed_as_they_are_read(rt: HostRuntime) -> Result<(), AllocError> {
    for text in COMMANDS.split_terminator('\n') {
        assert!(rt; is_command(rt.alloc(), text)?, "at {text}");
    }
    for text in LINES.split_terminator('\n') {
        assert!(rt; is_line(rt.alloc(), text)?, "at {text}");
    }
    for text in NO_LINES.split_terminator('\n') {
        assert!(rt; is_no_line(rt.alloc(), text)?, "at {text}");
    }
    Ok(())
}
