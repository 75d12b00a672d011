// `permit_check`: which users have which access by a mode.
use permit_check::met;
use xm_num::Access::{self, ReadOnly, ReadWrite};

// A mode, who asks, by user and group, for which access, and whether they have it. The maker is user 10 of group 20.
#[derive(Drop)]
struct Row(u16, u32, u32, Access, bool);

fn answers(row: &Row) -> bool {
    let Row(mode, uid, gid, access, want) = row;
    met(*mode, 10, 20, *uid, *gid, *access) == *want
}

// Each class of users by its own digit.
fn classes() -> [Row; 14] {
    [
        Row(0o640, 10, 20, ReadOnly, true),
        Row(0o640, 10, 20, ReadWrite, true),
        Row(0o640, 10, 99, ReadWrite, true),
        Row(0o640, 11, 20, ReadOnly, true),
        Row(0o640, 11, 20, ReadWrite, false),
        Row(0o640, 11, 21, ReadOnly, false),
        Row(0o640, 11, 21, ReadWrite, false),
        Row(0o604, 11, 20, ReadOnly, false),
        Row(0o604, 11, 21, ReadOnly, true),
        Row(0o604, 11, 21, ReadWrite, false),
        Row(0o077, 10, 20, ReadOnly, false),
        Row(0o707, 11, 20, ReadOnly, false),
        Row(0o770, 11, 21, ReadOnly, false),
        Row(0o006, 11, 21, ReadWrite, true),
    ]
}

// Each digit by itself.
fn digits() -> [Row; 16] {
    [
        Row(0o000, 10, 20, ReadOnly, false),
        Row(0o100, 10, 20, ReadOnly, false),
        Row(0o200, 10, 20, ReadOnly, false),
        Row(0o300, 10, 20, ReadOnly, false),
        Row(0o400, 10, 20, ReadOnly, true),
        Row(0o500, 10, 20, ReadOnly, true),
        Row(0o600, 10, 20, ReadOnly, true),
        Row(0o700, 10, 20, ReadOnly, true),
        Row(0o000, 11, 20, ReadWrite, false),
        Row(0o010, 11, 20, ReadWrite, false),
        Row(0o020, 11, 20, ReadWrite, false),
        Row(0o030, 11, 20, ReadWrite, false),
        Row(0o040, 11, 20, ReadWrite, false),
        Row(0o050, 11, 20, ReadWrite, false),
        Row(0o060, 11, 20, ReadWrite, true),
        Row(0o070, 11, 20, ReadWrite, true),
    ]
}

// Nobody is above the rule, and no digit stands above the three.
fn edges() -> [Row; 8] {
    [
        Row(0o770, 0, 0, ReadOnly, false),
        Row(0o007, 0, 0, ReadWrite, true),
        Row(0o600, u32::MAX, 20, ReadOnly, false),
        Row(0o060, 11, u32::MAX, ReadOnly, false),
        Row(0o7000, 10, 20, ReadOnly, false),
        Row(0o7077, 10, 20, ReadOnly, false),
        Row(0o7600, 10, 20, ReadWrite, true),
        Row(u16::MAX, 11, 21, ReadWrite, true),
    ]
}

#[test]
fn permits_by_modes(rt: HostRuntime) {
    let (classes, digits, edges) = (classes(), digits(), edges());
    let tables: [(&str, &[Row]); 3] = [
        ("classes", &classes),
        ("digits", &digits),
        ("edges", &edges),
    ];
    for (name, rows) in tables {
        for (row, asked) in rows.iter().enumerate() {
            assert!(rt; answers(asked), "{name}, row {row}");
        }
    }
}
