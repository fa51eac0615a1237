// The rows of the data files.

/// A row: a kind of call, its numbers, its input, and what is to be answered.
#[derive(Drop)]
pub(crate) struct Row<'a> {
    pub kind: &'a str,
    pub numbers: [u64; 3],
    pub input: &'a str,
    pub expected: &'a str,
}

/// The row of a line, `KIND INPUT => ANSWER`, or `KIND,N,N,N INPUT => ANSWER` with up to three numbers.
pub(crate) fn row_of(line: &str) -> Row<'_> {
    let (call, expected) = line.split_once(" =>").unwrap_or((line, ""));
    let (head, input) = call.split_once(' ').unwrap_or((call, ""));
    let mut words = head.split(',');
    Row {
        kind: words.next().unwrap_or(""),
        numbers: [
            number_of(words.next()),
            number_of(words.next()),
            number_of(words.next()),
        ],
        input,
        expected: expected.trim(),
    }
}

// The number that a word is, 0 where there is none.
fn number_of(word: Option<&str>) -> u64 {
    word.unwrap_or("").parse().unwrap_or(0)
}
