// A sentence by its frame: the start, and what stands between it and the CR LF.
ghost use Rattle.std.specs.Prelude.{◌≡◌, ◌≤◌, true, length};
ghost use Rattle.vdr_sentence.specs.Characters.{is_start};

/// The start of a sentence, and what stands between it and the CR LF.
#[derive(Clone, Copy, Drop)]
pub(crate) struct Frame<'a> {
    pub(crate) start: u8,
    pub(crate) body: &'a [u8],
    ghost begins: { is_start start ≡ true },
    ghost short: { length body.now ≤ 79 },
}
