// The names and numbers of the transmission groups (IEC 61162-450).
ghost use Rattle.std.specs.Prelude.{◌≡◌, ◌≤◌, ◌<◌, Some, IfSome};
ghost use Rattle.vdr_terms.specs.Groups.{group_name, group_numbered};

/// The name of a transmission group, 0 (`MISC`) to 15 (`USR8`), after IEC 61162-450; the numbers are this project's profile.
pub fn group_name(group: u8) -> &'static str
    requires { group ≤ 15 }
    ensures { result.now ≡ group_name group }
{
    match group {
        0 => "MISC",
        1 => "TGTD",
        2 => "SATD",
        3 => "NAVD",
        4 => "VDRD",
        5 => "RCOM",
        6 => "TIME",
        7 => "PROP",
        8 => "USR1",
        9 => "USR2",
        10 => "USR3",
        11 => "USR4",
        12 => "USR5",
        13 => "USR6",
        14 => "USR7",
        _ => "USR8",
    }
}

/// The number of the transmission group of this name, None where no group has it.
pub fn group_number(name: &str) -> Option<u8>
    ensures number { result ≡ group_numbered name.now }
    ensures sixteen { IfSome result (λ n. n < 16) }
{
    if name == "MISC" {
        Some(0)
    } else if name == "TGTD" {
        Some(1)
    } else if name == "SATD" {
        Some(2)
    } else if name == "NAVD" {
        Some(3)
    } else if name == "VDRD" {
        Some(4)
    } else if name == "RCOM" {
        Some(5)
    } else if name == "TIME" {
        Some(6)
    } else if name == "PROP" {
        Some(7)
    } else if name == "USR1" {
        Some(8)
    } else if name == "USR2" {
        Some(9)
    } else if name == "USR3" {
        Some(10)
    } else if name == "USR4" {
        Some(11)
    } else if name == "USR5" {
        Some(12)
    } else if name == "USR6" {
        Some(13)
    } else if name == "USR7" {
        Some(14)
    } else if name == "USR8" {
        Some(15)
    } else {
        None
    }
}
