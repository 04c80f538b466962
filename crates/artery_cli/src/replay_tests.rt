use crate::tests::tells;
use std::test::*;

/// Calls with their input, what they write and their status.
const SCRIPTS: [(&[u8], &[u8], &[u8], u8); 21] = [
    // A bad line is named.
    (
        b"replay",
        b"\
start akka://A@h1:25520 1
start akka://B@h2:25520 2
jump
at 1 pair akka://B@h2:25520
pass 9
",
        b"\
fault line 3
",
        2,
    ),
    // A message is sent and taken.
    (
        b"replay",
        b"\
start akka://A@h1:25520 1
start akka://B@h2:25520 2
at 1 pair akka://B@h2:25520
pass 9
at 1 send akka://B@h2:25520 5 x 0102
pass 9
",
        b"\
akka://A@h1:25520#1 started
akka://B@h2:25520#2 started
akka://A@h1:25520#1 learnt akka://B@h2:25520#2
akka://B@h2:25520#2 learnt akka://A@h1:25520#1
akka://A@h1:25520#1 sent akka://B@h2:25520#2 1 5 x 0102
akka://B@h2:25520#2 took akka://A@h1:25520#1 1 5 x 0102
bytes 1 1 293 293
bytes 2 1 284 284
bytes 1 2 88 88
bytes 2 2 88 88
",
        0,
    ),
    // A message waits for the first meeting: the asker learns first and tells what waited as sent.
    (
        b"replay",
        b"\
start akka://A@h1:25520 1
start akka://B@h2:25520 2
at 1 send akka://B@h2:25520 5 x 0102
pass 9
",
        b"\
akka://A@h1:25520#1 started
akka://B@h2:25520#2 started
akka://A@h1:25520#1 learnt akka://B@h2:25520#2
akka://A@h1:25520#1 sent akka://B@h2:25520#2 1 5 x 0102
akka://B@h2:25520#2 learnt akka://A@h1:25520#1
akka://B@h2:25520#2 took akka://A@h1:25520#1 1 5 x 0102
bytes 1 1 293 293
bytes 2 1 284 284
bytes 1 2 88 88
bytes 2 2 88 88
",
        0,
    ),
    // A frame is cut in three.
    (
        b"replay",
        b"\
start akka://A@h1:25520 1
start akka://B@h2:25520 2
at 1 pair akka://B@h2:25520
pass 9
at 1 send akka://B@h2:25520 5 x 0102
carry 1 1 3
carry 1 1 70
pass 9
",
        b"\
akka://A@h1:25520#1 started
akka://B@h2:25520#2 started
akka://A@h1:25520#1 learnt akka://B@h2:25520#2
akka://B@h2:25520#2 learnt akka://A@h1:25520#1
akka://A@h1:25520#1 sent akka://B@h2:25520#2 1 5 x 0102
akka://B@h2:25520#2 took akka://A@h1:25520#1 1 5 x 0102
bytes 1 1 293 293
bytes 2 1 284 284
bytes 1 2 88 88
bytes 2 2 88 88
",
        0,
    ),
    // The same, delivered at once.
    (
        b"replay",
        b"\
start akka://A@h1:25520 1
start akka://B@h2:25520 2
at 1 pair akka://B@h2:25520
pass 9
at 1 send akka://B@h2:25520 5 x 0102
pass 9
",
        b"\
akka://A@h1:25520#1 started
akka://B@h2:25520#2 started
akka://A@h1:25520#1 learnt akka://B@h2:25520#2
akka://B@h2:25520#2 learnt akka://A@h1:25520#1
akka://A@h1:25520#1 sent akka://B@h2:25520#2 1 5 x 0102
akka://B@h2:25520#2 took akka://A@h1:25520#1 1 5 x 0102
bytes 1 1 293 293
bytes 2 1 284 284
bytes 1 2 88 88
bytes 2 2 88 88
",
        0,
    ),
    // A lost connection is made again, and what was lost on it is written again.
    (
        b"replay",
        b"\
start akka://A@h1:25520 1
start akka://B@h2:25520 2
at 1 pair akka://B@h2:25520
pass 9
at 1 send akka://B@h2:25520 5 x 0102
end 2 all
pass 1
cut 2 all
cut 1 all
tick 1 1000
tick 2 1000
pass 9
",
        b"\
akka://A@h1:25520#1 started
akka://B@h2:25520#2 started
akka://A@h1:25520#1 learnt akka://B@h2:25520#2
akka://B@h2:25520#2 learnt akka://A@h1:25520#1
akka://A@h1:25520#1 sent akka://B@h2:25520#2 1 5 x 0102
akka://B@h2:25520#2 took akka://A@h1:25520#1 1 5 x 0102
akka://B@h2:25520#2 again akka://A@h1:25520#1 1
bytes 1 1 293 293
bytes 2 1 284 220
bytes 1 2 88 88
bytes 2 2 88 88
bytes 1 3 293 293
bytes 2 3 284 284
bytes 1 4 88 88
bytes 2 4 88 88
",
        0,
    ),
    // An acknowledgement is lost, and the message comes again.
    (
        b"replay",
        b"\
start akka://A@h1:25520 1
start akka://B@h2:25520 2
at 1 pair akka://B@h2:25520
pass 9
at 1 send akka://B@h2:25520 5 x 0102
carry 1 1 73
end 2 1
cut 2 1
cut 1 1
tick 1 1000
tick 2 1000
pass 9
",
        b"\
akka://A@h1:25520#1 started
akka://B@h2:25520#2 started
akka://A@h1:25520#1 learnt akka://B@h2:25520#2
akka://B@h2:25520#2 learnt akka://A@h1:25520#1
akka://A@h1:25520#1 sent akka://B@h2:25520#2 1 5 x 0102
akka://B@h2:25520#2 took akka://A@h1:25520#1 1 5 x 0102
akka://B@h2:25520#2 again akka://A@h1:25520#1 1
bytes 1 1 293 293
bytes 2 1 284 220
bytes 1 2 88 88
bytes 2 2 88 88
bytes 1 3 227 227
bytes 2 3 218 218
",
        0,
    ),
    // An answer of a stopped node binds nothing.
    (
        b"replay",
        b"\
start akka://A@h1:25520 1
start akka://B@h2:25520 2
at 1 pair akka://B@h2:25520
answer 1 1
carry 1 1 88
answer 2 1
stop 2
start akka://B@h2:25520 3
cut 1 1
tick 1 1000
carry 2 1 154
answer 1 2
carry 1 2 88
answer 3 1
pass 9
",
        b"\
akka://A@h1:25520#1 started
akka://B@h2:25520#2 started
akka://B@h2:25520#2 stopped
akka://B@h2:25520#3 started
akka://A@h1:25520#1 stray akka://B@h2:25520#2 1
akka://B@h2:25520#3 stray akka://A@h1:25520#1 1
akka://A@h1:25520#1 learnt akka://B@h2:25520#3
akka://B@h2:25520#3 learnt akka://A@h1:25520#1
bytes 1 1 88 88
bytes 2 1 154 154
bytes 1 2 286 286
bytes 3 1 220 220
bytes 1 3 88 88
bytes 3 2 88 88
",
        0,
    ),
    // A successor at the same address gets nothing of what was sent to its predecessor.
    (
        b"replay",
        b"\
start akka://A@h1:25520 1
start akka://B@h2:25520 2
at 1 pair akka://B@h2:25520
pass 9
at 1 send akka://B@h2:25520 5 x 01
at 1 send akka://B@h2:25520 5 x 02
at 1 send akka://B@h2:25520 5 x 03
stop 2
start akka://B@h2:25520 3
cut 1 1
tick 1 1000
pass 9
",
        b"\
akka://A@h1:25520#1 started
akka://B@h2:25520#2 started
akka://A@h1:25520#1 learnt akka://B@h2:25520#2
akka://B@h2:25520#2 learnt akka://A@h1:25520#1
akka://A@h1:25520#1 sent akka://B@h2:25520#2 1 5 x 01
akka://A@h1:25520#1 sent akka://B@h2:25520#2 2 5 x 02
akka://A@h1:25520#1 sent akka://B@h2:25520#2 3 5 x 03
akka://B@h2:25520#2 stopped
akka://B@h2:25520#3 started
akka://A@h1:25520#1 closed akka://B@h2:25520#2 superseded
akka://A@h1:25520#1 learnt akka://B@h2:25520#3
akka://B@h2:25520#3 learnt akka://A@h1:25520#1
bytes 1 1 436 220
bytes 2 1 220 220
bytes 1 2 88 88
bytes 2 2 88 88
bytes 1 3 220 220
bytes 3 1 220 220
bytes 1 4 88 88
bytes 3 2 88 88
",
        0,
    ),
    // A successor is found after all connections were cut.
    (
        b"replay",
        b"\
start akka://A@h1:25520 1
start akka://B@h2:25520 2
at 1 pair akka://B@h2:25520
pass 9
at 1 send akka://B@h2:25520 5 x 01
at 1 send akka://B@h2:25520 5 x 02
at 1 send akka://B@h2:25520 5 x 03
stop 2
start akka://B@h2:25520 3
cut 1 all
tick 1 1000
pass 9
",
        b"\
akka://A@h1:25520#1 started
akka://B@h2:25520#2 started
akka://A@h1:25520#1 learnt akka://B@h2:25520#2
akka://B@h2:25520#2 learnt akka://A@h1:25520#1
akka://A@h1:25520#1 sent akka://B@h2:25520#2 1 5 x 01
akka://A@h1:25520#1 sent akka://B@h2:25520#2 2 5 x 02
akka://A@h1:25520#1 sent akka://B@h2:25520#2 3 5 x 03
akka://B@h2:25520#2 stopped
akka://B@h2:25520#3 started
akka://A@h1:25520#1 closed akka://B@h2:25520#2 superseded
akka://A@h1:25520#1 learnt akka://B@h2:25520#3
akka://B@h2:25520#3 learnt akka://A@h1:25520#1
bytes 1 1 436 220
bytes 2 1 220 220
bytes 1 2 88 88
bytes 2 2 88 88
bytes 1 3 220 220
bytes 3 1 220 220
bytes 1 4 88 88
bytes 3 2 88 88
",
        0,
    ),
    // An acknowledgement of a closed incarnation is dropped.
    (
        b"replay",
        b"\
start akka://A@h1:25520 1
start akka://B@h2:25520 2
at 1 pair akka://B@h2:25520
pass 9
at 1 send akka://B@h2:25520 5 x 0102
carry 1 1 73
stop 2
start akka://B@h2:25520 3
cut 1 1
tick 1 1000
answer 1 3
carry 1 3 88
answer 3 1
carry 3 1 154
at 1 send akka://B@h2:25520 5 y 03
carry 2 1 64
tick 1 2000
pass 9
",
        b"\
akka://A@h1:25520#1 started
akka://B@h2:25520#2 started
akka://A@h1:25520#1 learnt akka://B@h2:25520#2
akka://B@h2:25520#2 learnt akka://A@h1:25520#1
akka://A@h1:25520#1 sent akka://B@h2:25520#2 1 5 x 0102
akka://B@h2:25520#2 took akka://A@h1:25520#1 1 5 x 0102
akka://B@h2:25520#2 stopped
akka://B@h2:25520#3 started
akka://A@h1:25520#1 closed akka://B@h2:25520#2 superseded
akka://A@h1:25520#1 learnt akka://B@h2:25520#3
akka://A@h1:25520#1 sent akka://B@h2:25520#3 1 5 y 03
akka://A@h1:25520#1 dropped 1 closed
akka://B@h2:25520#3 learnt akka://A@h1:25520#1
akka://B@h2:25520#3 took akka://A@h1:25520#1 1 5 y 03
akka://B@h2:25520#3 again akka://A@h1:25520#1 1
bytes 1 1 293 293
bytes 2 1 284 284
bytes 1 2 88 88
bytes 2 2 88 88
bytes 1 3 364 364
bytes 3 1 348 348
bytes 1 4 88 88
bytes 3 2 88 88
",
        0,
    ),
    // An incarnation is quarantined; a UID that was used starts no more.
    (
        b"replay",
        b"\
start akka://A@h1:25520 1
start akka://B@h2:25520 2
at 1 pair akka://B@h2:25520
pass 9
at 1 send akka://B@h2:25520 5 x 0102
at 2 send akka://A@h1:25520 5 y 03
at 1 quarantine akka://B@h2:25520
pass 9
start akka://C@h3:25520 2
",
        b"\
akka://A@h1:25520#1 started
akka://B@h2:25520#2 started
akka://A@h1:25520#1 learnt akka://B@h2:25520#2
akka://B@h2:25520#2 learnt akka://A@h1:25520#1
akka://A@h1:25520#1 sent akka://B@h2:25520#2 1 5 x 0102
akka://B@h2:25520#2 sent akka://A@h1:25520#1 1 5 y 03
akka://A@h1:25520#1 closed akka://B@h2:25520#2 quarantined
akka://B@h2:25520#2 took akka://A@h1:25520#1 1 5 x 0102
akka://B@h2:25520#2 notice akka://A@h1:25520#1
akka://A@h1:25520#1 dropped 1 closed
akka://A@h1:25520#1 dropped 1 closed
akka://B@h2:25520#2 notice akka://A@h1:25520#1
akka://B@h2:25520#2 notice akka://A@h1:25520#1
fault line 9 not-allowed used-uid
",
        5,
    ),
    // A watch ends where its watched actor does, and an unwatch that crosses it is the last of it.
    (
        b"replay",
        b"\
start akka://A@h1:25520 1
start akka://B@h2:25520 2
at 1 pair akka://B@h2:25520
pass 9
at 2 spawn /user/x
at 1 watch /user/w akka://B@h2:25520/user/x
pass 2
at 2 kill /user/x
at 1 unwatch /user/w akka://B@h2:25520/user/x
pass 2
",
        b"\
akka://A@h1:25520#1 started
akka://B@h2:25520#2 started
akka://A@h1:25520#1 learnt akka://B@h2:25520#2
akka://B@h2:25520#2 learnt akka://A@h1:25520#1
akka://B@h2:25520#2 spawned /user/x
akka://A@h1:25520#1 watched 1 akka://A@h1:25520/user/w akka://B@h2:25520/user/x
akka://A@h1:25520#1 sent akka://B@h2:25520#2 1 9001 W 1800616b6b613a2f2f424068323a32353532302f757365722f781800616b6b613a2f2f414068313a32353532302f757365722f77
akka://B@h2:25520#2 took akka://A@h1:25520#1 1 9001 W 1800616b6b613a2f2f424068323a32353532302f757365722f781800616b6b613a2f2f414068313a32353532302f757365722f77
akka://B@h2:25520#2 ended /user/x
akka://B@h2:25520#2 sent akka://A@h1:25520#1 1 9001 D 1800616b6b613a2f2f424068323a32353532302f757365722f781800616b6b613a2f2f414068313a32353532302f757365722f77
akka://A@h1:25520#1 unwatched 1
akka://A@h1:25520#1 sent akka://B@h2:25520#2 2 9001 U 1800616b6b613a2f2f424068323a32353532302f757365722f781800616b6b613a2f2f414068313a32353532302f757365722f77
akka://B@h2:25520#2 took akka://A@h1:25520#1 2 9001 U 1800616b6b613a2f2f424068323a32353532302f757365722f781800616b6b613a2f2f414068313a32353532302f757365722f77
akka://A@h1:25520#1 took akka://B@h2:25520#2 1 9001 D 1800616b6b613a2f2f424068323a32353532302f757365722f781800616b6b613a2f2f414068313a32353532302f757365722f77
bytes 1 1 532 532
bytes 2 1 472 472
bytes 1 2 88 88
bytes 2 2 88 88
",
        0,
    ),
    // A watch of an actor that is not there ends at once.
    (
        b"replay",
        b"\
start akka://A@h1:25520 1
start akka://B@h2:25520 2
at 1 pair akka://B@h2:25520
pass 9
at 1 watch /user/w akka://B@h2:25520/user/x
pass 2
",
        b"\
akka://A@h1:25520#1 started
akka://B@h2:25520#2 started
akka://A@h1:25520#1 learnt akka://B@h2:25520#2
akka://B@h2:25520#2 learnt akka://A@h1:25520#1
akka://A@h1:25520#1 watched 1 akka://A@h1:25520/user/w akka://B@h2:25520/user/x
akka://A@h1:25520#1 sent akka://B@h2:25520#2 1 9001 W 1800616b6b613a2f2f424068323a32353532302f757365722f781800616b6b613a2f2f414068313a32353532302f757365722f77
akka://B@h2:25520#2 took akka://A@h1:25520#1 1 9001 W 1800616b6b613a2f2f424068323a32353532302f757365722f781800616b6b613a2f2f414068313a32353532302f757365722f77
akka://B@h2:25520#2 sent akka://A@h1:25520#1 1 9001 D 1800616b6b613a2f2f424068323a32353532302f757365722f781800616b6b613a2f2f414068313a32353532302f757365722f77
akka://A@h1:25520#1 took akka://B@h2:25520#2 1 9001 D 1800616b6b613a2f2f424068323a32353532302f757365722f781800616b6b613a2f2f414068313a32353532302f757365722f77
akka://A@h1:25520#1 terminated 1
bytes 1 1 408 408
bytes 2 1 408 408
bytes 1 2 88 88
bytes 2 2 88 88
",
        0,
    ),
    // A table is advertised and used.
    (
        b"replay",
        b"\
start akka://A@h1:25520 1
start akka://B@h2:25520 2
at 1 pair akka://B@h2:25520
pass 9
at 1 tell akka://B@h2:25520 - akka://B@h2:25520/user/x 4 T 00ff
pass 1
tick 2 60000
pass 2
at 1 tell akka://B@h2:25520 - akka://B@h2:25520/user/x 4 T 00ff
pass 1
",
        b"\
akka://A@h1:25520#1 started
akka://B@h2:25520#2 started
akka://A@h1:25520#1 learnt akka://B@h2:25520#2
akka://B@h2:25520#2 learnt akka://A@h1:25520#1
akka://A@h1:25520#1 told akka://B@h2:25520#2 2 - akka://B@h2:25520/user/x 4 T 00ff
akka://B@h2:25520#2 got akka://A@h1:25520#1 2 - akka://B@h2:25520/user/x 4 T 00ff
akka://B@h2:25520#2 advertised akka://A@h1:25520#1 refs 1 1
akka://B@h2:25520#2 advertised akka://A@h1:25520#1 manifests 1 1
akka://A@h1:25520#1 adopted akka://B@h2:25520#2 refs 1
akka://A@h1:25520#1 adopted akka://B@h2:25520#2 manifests 1
akka://A@h1:25520#1 told akka://B@h2:25520#2 2 - akka://B@h2:25520/user/x 4 T 00ff
akka://B@h2:25520#2 got akka://A@h1:25520#1 2 - akka://B@h2:25520/user/x 4 T 00ff
bytes 1 1 348 348
bytes 2 1 385 385
bytes 1 2 189 189
bytes 2 2 88 88
",
        0,
    ),
    // The same with each write.
    (
        b"replay --bytes",
        b"\
start akka://A@h1:25520 1
start akka://B@h2:25520 2
at 1 pair akka://B@h2:25520
pass 9
at 1 tell akka://B@h2:25520 - akka://B@h2:25520/user/x 4 T 00ff
pass 1
tick 2 60000
pass 2
at 1 tell akka://B@h2:25520 - akka://B@h2:25520/user/x 4 T 00ff
pass 1
",
        b"\
akka://A@h1:25520#1 started
akka://B@h2:25520#2 started
write 1 1 414b4b4101
write 1 1 4f000000000000000100000000000000110000001c0000001e00000020000000000000000100640a150a110a04616b6b611201411a02683120b0c701100112110a04616b6b611201421a02683220b0c7017801
write 2 1 414b4b4101
write 2 1 4f000000000000000200000000000000110000001c0000001e00000020000000000000000100640a150a110a04616b6b611201421a02683220b0c701100212110a04616b6b611201411a02683120b0c7017801
write 2 1 3e000000000000000200000000000000110000001c0000001e00000020000000000000000100650a150a110a04616b6b611201421a02683220b0c701100270017801
write 1 1 3e000000000000000100000000000000110000001c0000001e00000020000000000000000100650a150a110a04616b6b611201411a02683120b0c701100170027801
akka://A@h1:25520#1 learnt akka://B@h2:25520#2
write 1 2 414b4b4102
write 1 2 4f000000000000000100000000000000110000001c0000001e00000020000000000000000100640a150a110a04616b6b611201411a02683120b0c701100112110a04616b6b611201421a02683220b0c7017802
akka://B@h2:25520#2 learnt akka://A@h1:25520#1
write 2 1 3e000000000000000200000000000000110000001c0000001e00000020000000000000000100650a150a110a04616b6b611201421a02683220b0c701100270017802
write 2 2 414b4b4102
write 2 2 4f000000000000000200000000000000110000001c0000001e00000020000000000000000100640a150a110a04616b6b611201421a02683220b0c701100212110a04616b6b611201411a02683120b0c7017802
write 1 1 3e000000000000000100000000000000110000001c0000001e00000020000000000000000100650a150a110a04616b6b611201411a02683120b0c701100170027802
akka://A@h1:25520#1 told akka://B@h2:25520#2 2 - akka://B@h2:25520/user/x 4 T 00ff
write 1 2 3d000000000000000100000000000000040000001c0000001e0000003800000000001800616b6b613a2f2f424068323a32353532302f757365722f7801005400ff
akka://B@h2:25520#2 got akka://A@h1:25520#1 2 - akka://B@h2:25520/user/x 4 T 00ff
akka://B@h2:25520#2 advertised akka://A@h1:25520#1 refs 1 1
write 2 1 5a000000000000000200000000000000110000001c0000001e00000020000000000000000100660a150a110a04616b6b611201421a02683220b0c7011002100118012218616b6b613a2f2f424068323a32353532302f757365722f782800
akka://B@h2:25520#2 advertised akka://A@h1:25520#1 manifests 1 1
write 2 1 43000000000000000200000000000000110000001c0000001e00000020000000000000000100680a150a110a04616b6b611201421a02683220b0c7011002100118012201542800
akka://A@h1:25520#1 adopted akka://B@h2:25520#2 refs 1
write 1 1 3c000000000000000100000000000000110000001c0000001e00000020000000000000000100670a150a110a04616b6b611201411a02683120b0c70110011001
akka://A@h1:25520#1 adopted akka://B@h2:25520#2 manifests 1
write 1 1 3c000000000000000100000000000000110000001c0000001e00000020000000000000000100690a150a110a04616b6b611201411a02683120b0c70110011001
akka://A@h1:25520#1 told akka://B@h2:25520#2 2 - akka://B@h2:25520/user/x 4 T 00ff
write 1 2 20000000000001010100000000000000040000001c000000000000ff000000ff000000ff
akka://B@h2:25520#2 got akka://A@h1:25520#1 2 - akka://B@h2:25520/user/x 4 T 00ff
bytes 1 1 348 348
bytes 2 1 385 385
bytes 1 2 189 189
bytes 2 2 88 88
",
        0,
    ),
    // A connection that is idle sleeps, and wakes.
    (
        b"replay",
        b"\
start akka://A@h1:25520 1
start akka://B@h2:25520 2
at 1 pair akka://B@h2:25520
pass 9
tick 1 300000
tick 2 300000
at 1 send akka://B@h2:25520 5 x 0102
pass 9
",
        b"\
akka://A@h1:25520#1 started
akka://B@h2:25520#2 started
akka://A@h1:25520#1 learnt akka://B@h2:25520#2
akka://B@h2:25520#2 learnt akka://A@h1:25520#1
akka://A@h1:25520#1 idle akka://B@h2:25520#2
akka://B@h2:25520#2 idle akka://A@h1:25520#1
akka://A@h1:25520#1 sent akka://B@h2:25520#2 1 5 x 0102
akka://B@h2:25520#2 took akka://A@h1:25520#1 1 5 x 0102
bytes 1 1 220 220
bytes 2 1 220 220
bytes 1 2 88 88
bytes 2 2 88 88
bytes 1 3 293 293
bytes 2 3 284 284
bytes 1 4 88 88
bytes 2 4 88 88
",
        0,
    ),
    // What is not acknowledged for six hours is given up, told with moments.
    (
        b"replay --moments",
        b"\
start akka://A@h1:25520 1
start akka://B@h2:25520 2
at 1 pair akka://B@h2:25520
pass 9
end 1 all
at 1 send akka://B@h2:25520 5 x 01
tick 1 21599999
tick 1 21600000
",
        b"\
journal 2
0 akka://A@h1:25520#1 started
0 akka://B@h2:25520#2 started
0 akka://A@h1:25520#1 learnt akka://B@h2:25520#2
0 akka://B@h2:25520#2 learnt akka://A@h1:25520#1
0 akka://A@h1:25520#1 sent akka://B@h2:25520#2 1 5 x 01
21600000 akka://A@h1:25520#1 closed akka://B@h2:25520#2 undelivered
bytes 1 1 449 220
bytes 2 1 220 220
bytes 1 2 88 88
bytes 2 2 88 88
",
        0,
    ),
    // The example of a broken connection.
    (
        b"replay",
        b"\
# A connection breaks under a message, and the message is written again on the next one.
start akka://A@h1:25520 1
start akka://B@h2:25520 2
# A asks who lives at B's address; both learn each other.
at 1 pair akka://B@h2:25520
pass 9
# A writes a message on its first connection, which breaks before the message arrives.
at 1 send akka://B@h2:25520 5 order 01
end 1 1
cut 1 1
# A second message is numbered and kept meanwhile.
at 1 send akka://B@h2:25520 5 order 02
# After a second A dials again. Both messages arrive, each once and in order.
tick 1 1000
pass 9
",
        b"\
akka://A@h1:25520#1 started
akka://B@h2:25520#2 started
akka://A@h1:25520#1 learnt akka://B@h2:25520#2
akka://B@h2:25520#2 learnt akka://A@h1:25520#1
akka://A@h1:25520#1 sent akka://B@h2:25520#2 1 5 order 01
akka://A@h1:25520#1 sent akka://B@h2:25520#2 2 5 order 02
akka://B@h2:25520#2 took akka://A@h1:25520#1 1 5 order 01
akka://B@h2:25520#2 took akka://A@h1:25520#1 2 5 order 02
bytes 1 1 296 220
bytes 2 1 414 414
bytes 1 2 88 88
bytes 2 2 88 88
bytes 1 3 240 240
",
        0,
    ),
    // The example of a restart.
    (
        b"replay",
        b"\
# A node restarts at its address: the new incarnation is another one, and gets nothing of what was sent to the former.
start akka://A@h1:25520 1
start akka://B@h2:25520 2
at 1 pair akka://B@h2:25520
pass 9
at 1 send akka://B@h2:25520 5 order 01
pass 9
# B stops while a second message is on its way, and starts again with another UID.
at 1 send akka://B@h2:25520 5 order 02
stop 2
start akka://B@h2:25520 3
# A's connections break, and it dials again: it closes the former incarnation for good.
cut 1 all
tick 1 1000
pass 9
# Messages to the new one are numbered from 1.
at 1 send akka://B@h2:25520 5 order 03
pass 9
",
        b"\
akka://A@h1:25520#1 started
akka://B@h2:25520#2 started
akka://A@h1:25520#1 learnt akka://B@h2:25520#2
akka://B@h2:25520#2 learnt akka://A@h1:25520#1
akka://A@h1:25520#1 sent akka://B@h2:25520#2 1 5 order 01
akka://B@h2:25520#2 took akka://A@h1:25520#1 1 5 order 01
akka://A@h1:25520#1 sent akka://B@h2:25520#2 2 5 order 02
akka://B@h2:25520#2 stopped
akka://B@h2:25520#3 started
akka://A@h1:25520#1 closed akka://B@h2:25520#2 superseded
akka://A@h1:25520#1 learnt akka://B@h2:25520#3
akka://B@h2:25520#3 learnt akka://A@h1:25520#1
akka://A@h1:25520#1 sent akka://B@h2:25520#3 1 5 order 03
akka://B@h2:25520#3 took akka://A@h1:25520#1 1 5 order 03
bytes 1 1 372 296
bytes 2 1 284 284
bytes 1 2 88 88
bytes 2 2 88 88
bytes 1 3 296 296
bytes 3 1 284 284
bytes 1 4 88 88
bytes 3 2 88 88
",
        0,
    ),
    // The example of a watch that ends.
    (
        b"replay",
        b"\
# An actor watches another one on a second node, and is told when that ends.
start akka://A@h1:25520 1
start akka://B@h2:25520 2
at 2 spawn /user/worker
at 1 watch /user/boss akka://B@h2:25520/user/worker
pass 9
at 2 kill /user/worker
pass 9
# One that is not there has ended already.
at 1 watch /user/boss akka://B@h2:25520/user/nobody
pass 9
",
        b"\
akka://A@h1:25520#1 started
akka://B@h2:25520#2 started
akka://B@h2:25520#2 spawned /user/worker
akka://A@h1:25520#1 watched 1 akka://A@h1:25520/user/boss akka://B@h2:25520/user/worker
akka://A@h1:25520#1 learnt akka://B@h2:25520#2
akka://A@h1:25520#1 sent akka://B@h2:25520#2 1 9001 W 1d00616b6b613a2f2f424068323a32353532302f757365722f776f726b65721b00616b6b613a2f2f414068313a32353532302f757365722f626f7373
akka://B@h2:25520#2 learnt akka://A@h1:25520#1
akka://B@h2:25520#2 took akka://A@h1:25520#1 1 9001 W 1d00616b6b613a2f2f424068323a32353532302f757365722f776f726b65721b00616b6b613a2f2f414068313a32353532302f757365722f626f7373
akka://B@h2:25520#2 ended /user/worker
akka://B@h2:25520#2 sent akka://A@h1:25520#1 1 9001 D 1d00616b6b613a2f2f424068323a32353532302f757365722f776f726b65721b00616b6b613a2f2f414068313a32353532302f757365722f626f7373
akka://A@h1:25520#1 took akka://B@h2:25520#2 1 9001 D 1d00616b6b613a2f2f424068323a32353532302f757365722f776f726b65721b00616b6b613a2f2f414068313a32353532302f757365722f626f7373
akka://A@h1:25520#1 terminated 1
akka://A@h1:25520#1 watched 2 akka://A@h1:25520/user/boss akka://B@h2:25520/user/nobody
akka://A@h1:25520#1 sent akka://B@h2:25520#2 2 9001 W 1d00616b6b613a2f2f424068323a32353532302f757365722f6e6f626f64791b00616b6b613a2f2f414068313a32353532302f757365722f626f7373
akka://B@h2:25520#2 took akka://A@h1:25520#1 2 9001 W 1d00616b6b613a2f2f424068323a32353532302f757365722f6e6f626f64791b00616b6b613a2f2f414068313a32353532302f757365722f626f7373
akka://B@h2:25520#2 sent akka://A@h1:25520#1 2 9001 D 1d00616b6b613a2f2f424068323a32353532302f757365722f6e6f626f64791b00616b6b613a2f2f414068313a32353532302f757365722f626f7373
akka://A@h1:25520#1 took akka://B@h2:25520#2 2 9001 D 1d00616b6b613a2f2f424068323a32353532302f757365722f6e6f626f64791b00616b6b613a2f2f414068313a32353532302f757365722f626f7373
akka://A@h1:25520#1 terminated 2
bytes 1 1 612 612
bytes 2 1 612 612
bytes 1 2 88 88
bytes 2 2 88 88
",
        0,
    ),
];

#[test]
fn scripts_of_a_network_are_answered(rt: HostRuntime) -> Result<(), Fail> {
    let alloc = rt.alloc();
    for (call, script, written, status) in &SCRIPTS {
        assert!(rt; tells(alloc, call, script, written, *status));
    }
    Ok(())
}
