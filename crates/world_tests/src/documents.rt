// The examples of the documents: each is read, and printed again as it stands.
use crate::printed::{is_command, is_line};
use std::alloc::AllocError;

const COMMANDS: &str = "\
pool 4096
host 1
host 16 ns
boot cokernel under 0 blocks 1
boot cokernel under 2 blocks 4096 ns
proc 0 100 100
alloc 0 1 16 2
free 0 1 16 2
make 0 1 65536 12288 0640
remove 0 1 1
get 1 1 1 ro
release 1 1 1
attach 1 1 1 4096 8192 0
detach 1 1 4096
exit 1 1
touch 0 1 69632 w
deliver 1 0 16
settle 100
kill 1 cut 0
stop 2
show maps 1 1
show routes 0
show pins 0
show link 1 0
show pool
show names
";

const LINES: &str = "\
do alloc 0 1 16 2
refused Taken
born 1 cokernel 0 - 1 2
told 3 1
admitted 0
proc 0 1 100 100
alloc 0 1 16 0 1
free 0 1 16 2
touched 0 1 17 1
issue 1 1 2
drew 0 1 1
named 0 1 1
unnamed 1
grant 0 1 1 1 ro
deny 0 1 4 BadRange
pin 0 1 2
map 1 2 1
unmap 1 2
unpin 0 1 2
release 1 1
ungrant 0 1 1
remove 0 1
undo 1 2
closed 1 2
exit 1 1
answer 0 1 1 segid 1
answer 1 1 1 apid 1 pages 3
answer 1 1 2 addr 4096
answer 1 1 4 refused BadRange
sent 0 1 admit 0 1 0
took 1 0 15
idle 1 0
got 1 0
end 1 0 19
drop 0
asked 0 1
way 1 0
back 0 1 1
route 0 1 1
gmap 0 2 1 2 128
gdrop 0 2 2
killed 1 5
stopped 3
held 1
heard 2 1
confirmed 1 2
unheld 1
settled 3
waiting 3
page 1 1 2 2 ro
at 0 way 3
at 0 way own
at 1 way none
at 0 route 2 1
at 0 pin 1 3 1 1 2
block 3 free
block 1 lent 1
block 1 held 1
name 1 1
bytes 1 0 0 1000000001010100ffff000000000000
sent 1 0 register 1 65535 0
sent 1 0 namereq 1 65535 1
sent 0 1 named 0 1 1 1
sent 1 0 lookup 1 65535 1 1
sent 0 1 found 0 1 1 1 65535
sent 1 0 get 1 0 1 1 1 11 20
sent 0 1 granted 0 1 1 3
sent 0 1 attachrefused 0 1 4 5
sent 1 0 release 1 0 1 1
sent 1 0 attach 1 0 2 1 1 2
sent 0 1 attached 0 1 2 2 1 2
sent 1 0 detach 1 0 2
sent 2 0 confirm 2 65535 0 1
";

#[test]
fn the_examples_of_the_documents(rt: HostRuntime) -> Result<(), AllocError> {
    for text in COMMANDS.split_terminator('\n') {
        assert!(rt; is_command(rt.alloc(), text)?, "at {text}");
    }
    for text in LINES.split_terminator('\n') {
        assert!(rt; is_line(rt.alloc(), text)?, "at {text}");
    }
    Ok(())
}
