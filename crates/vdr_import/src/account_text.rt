// The account of a capture's packets, as text.
ghost use Rattle.std.specs.Prelude.{◌≡◌, ◌≤◌, ◌<◌, ◌+◌, ◌*◌, ◌++◌, decimal, length};
ghost use Rattle.arrayvec.specs.ArrayVec.{array_vec_len};
ghost use Rattle.vdr_import.specs.AccountTexts.{account_text, cause_word, group_line, groups_below, left_below, left_line, line_if, number_line, row_word};

use arrayvec::ArrayVec;
use itoa::Buffer;
use vdr_pcap::{Account, ROWS};
use vdr_terms::group_name;

/// Room for the longest account: 76 lines of at most 60 bytes.
pub(crate) const ROOM: usize = 4_096;

fn push(text: &mut ArrayVec<u8, ROOM>, piece: &[u8])
    requires { array_vec_len text.old + length piece.now ≤ 4_096 }
    ensures { text.new.items ≡ text.old.items ++ piece.now }
{
    let _ = text.try_extend_from_slice(piece);
}

fn push_number(text: &mut ArrayVec<u8, ROOM>, n: u64)
    requires { array_vec_len text.old + 20 ≤ 4_096 }
    ensures grown { text.new.items ≡ text.old.items ++ decimal n }
    ensures short { array_vec_len text.new ≤ array_vec_len text.old + 20 }
{
    push(text, Buffer::new().format(n).as_bytes());
}

// A line of a word and a number.
fn push_line(text: &mut ArrayVec<u8, ROOM>, word: &[u8], n: u64)
    requires { array_vec_len text.old + length word.now + 22 ≤ 4_096 }
    ensures grown { text.new.items ≡ text.old.items ++ number_line word.now n }
    ensures short { array_vec_len text.new ≤ array_vec_len text.old + length word.now + 22 }
{
    push(text, word);
    push(text, b" ");
    push_number(text, n);
    push(text, b"\n");
}

// The same where the number is not 0.
fn push_line_if(text: &mut ArrayVec<u8, ROOM>, word: &[u8], n: u64)
    requires { array_vec_len text.old + length word.now + 22 ≤ 4_096 }
    ensures grown { text.new.items ≡ text.old.items ++ line_if word.now n }
    ensures short { array_vec_len text.new ≤ array_vec_len text.old + length word.now + 22 }
{
    if n != 0 {
        push_line(text, word, n);
    }
}

// The line of a group that has a datagram.
fn push_group(text: &mut ArrayVec<u8, ROOM>, group: u8, whole: u64, cut: u64)
    requires group { group ≤ 15 }
    requires room { array_vec_len text.old + 60 ≤ 4_096 }
    ensures grown { text.new.items ≡ text.old.items ++ group_line group whole cut }
    ensures short { array_vec_len text.new ≤ array_vec_len text.old + 60 }
{
    if whole == 0 && cut == 0 {
        return;
    }
    push(text, group_name(group).as_bytes());
    push(text, b" whole ");
    push_number(text, whole);
    push(text, b" cut ");
    push_number(text, cut);
    push(text, b"\n");
}

// The word of a row that is no port of another group.
fn cause_word(row: usize) -> &'static [u8]
    ensures word { result.now ≡ cause_word row }
    ensures short { length result.now ≤ 9 }
{
    match row {
        0 => b"link",
        1 => b"short",
        2 => b"protocol",
        3 => b"ipv6",
        4 => b"fragment",
        5 => b"malformed",
        6 => b"port",
        55 => b"stamp",
        _ => b"block",
    }
}

// The word of a row.
fn push_row_word(text: &mut ArrayVec<u8, ROOM>, row: usize)
    requires room { array_vec_len text.old + 25 ≤ 4_096 }
    ensures grown { text.new.items ≡ text.old.items ++ row_word row }
    ensures short { array_vec_len text.new ≤ array_vec_len text.old + 25 }
{
    if row < 7 || 54 < row {
        push(text, cause_word(row));
        return;
    }
    push(text, b"port-");
    push_number(text, 60_010 + row as u64);
}

// The line of a row that has a packet.
fn push_left(text: &mut ArrayVec<u8, ROOM>, row: usize, n: u64)
    requires { array_vec_len text.old + 52 ≤ 4_096 }
    ensures grown { text.new.items ≡ text.old.items ++ left_line row n }
    ensures short { array_vec_len text.new ≤ array_vec_len text.old + 52 }
{
    if n == 0 {
        return;
    }
    push(text, b"left ");
    push_row_word(text, row);
    push(text, b" ");
    push_number(text, n);
    push(text, b"\n");
}

fn push_groups(text: &mut ArrayVec<u8, ROOM>, account: &Account)
    requires { array_vec_len text.old ≤ 29 }
    ensures grown { text.new.items ≡ text.old.items ++ groups_below 16 account.now }
    ensures short { array_vec_len text.new ≤ 989 }
{
    for group in 0..16 {
        push_group(text, group, account.whole(group), account.cut(group));
    }
}

fn push_rows(text: &mut ArrayVec<u8, ROOM>, account: &Account)
    requires { array_vec_len text.old ≤ 989 }
    ensures grown { text.new.items ≡ text.old.items ++ left_below 57 account.now }
    ensures short { array_vec_len text.new ≤ 3_953 }
{
    for row in 0..ROWS {
        push_left(text, row, account.left(row));
    }
}

/// The account of a capture's packets, of which it lost so many itself, as text.
pub(crate) fn account_text(account: &Account, lost: u64) -> ArrayVec<u8, ROOM>
    ensures { result.items ≡ account_text account.now lost }
{
    let mut text = ArrayVec::new();
    push_line(&mut text, b"packets", account.packets());
    push_groups(&mut text, account);
    push_rows(&mut text, account);
    push_line_if(&mut text, b"lost", lost);
    push_line_if(&mut text, b"back", account.back());
    text
}
