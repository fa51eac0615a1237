// What stands before the rows of records.
ghost use Rattle.std.specs.Prelude.{◌≡◌, ◌++◌, IfOk, Err, OnOk, map};
ghost use Rattle.std.specs.List.{flat_map};
ghost use Rattle.vdr_visit.specs.Prints.{HasPrinted};
ghost use Rattle.vdr_visit.specs.Refusals.{HasOutputCause};
ghost use Rattle.vdr_visit.specs.declared.visit_refused.VisitorRefused.TheVariants.{Output};
ghost use Rattle.vdr_page.specs.Fronts.{page_row, save_of, save_row, words_of};
ghost use Rattle.vdr_page.specs.Pages.{front_text};
ghost use Rattle.vdr_page.specs.Template.{template_head};

use crate::field::{Field, flag, number_or_null, push_row};
use crate::printing::print_text;
use crate::survey::Survey;
use crate::template::head;
use arrayvec::ArrayVec;
use std::alloc::{AllocError, Global};
use vdr_outside::{Sink, write_all};
use vdr_visit::VisitorRefused;

/// What a page is asked for, as it was written.
#[derive(Clone, Copy, Drop)]
pub struct PageWords<'a> {
    pub medium: &'a [u8],
    pub from: &'a [u8],
    pub to: &'a [u8],
}

/// A live save.
#[derive(Default, Drop)]
pub struct Save {
    pub id: u32,
    /// When it was made, in milliseconds since 1970.
    pub utc: u64,
    /// The place of its first record.
    pub first: u64,
    /// The place of its last record.
    pub last: u64,
    pub label: ArrayVec<u8, 64>,
}

fn push_page(text: &mut Vec<u8>, words: &PageWords<'_>, survey: &Survey) -> Result<(), AllocError>
    ensures { OnOk result (text.new.items ≡ text.old.items ++ page_row (words_of words.now) survey.now) }
{
    push_row(
        text,
        b"page",
        &[
            Field::Number(1),
            Field::Text(words.medium),
            Field::Text(words.from),
            Field::Text(words.to),
            number_or_null(survey.low),
            number_or_null(survey.high),
            Field::Number(survey.step()),
            flag(survey.raw),
            flag(survey.sound),
            flag(survey.pictures),
            Field::Number(survey.records),
        ],
    )
}

fn push_save(text: &mut Vec<u8>, save: &Save) -> Result<(), AllocError>
    ensures { OnOk result (text.new.items ≡ text.old.items ++ save_row (save_of save.now)) }
{
    push_row(
        text,
        b"save",
        &[
            Field::Number(u64::from(save.id)),
            Field::Number(save.utc),
            Field::Number(save.first),
            Field::Number(save.last),
            Field::Text(save.label.as_slice()),
        ],
    )
}

fn push_saves(text: &mut Vec<u8>, saves: &[Save]) -> Result<(), AllocError>
    ensures { OnOk result (text.new.items ≡ text.old.items ++ flat_map save_row (map save_of saves.now)) }
{
    for save in saves {
        push_save(text, save)?;
    }
    Ok(())
}

// The first text of the template.
fn begin(alloc: Global) -> Result<Vec<u8>, AllocError>
    ensures { IfOk result (λ text. text.items ≡ template_head) }
{
    let mut text = Vec::new(alloc);
    text.extend_from_slice(head())?;
    Ok(text)
}

// The text of a front.
fn front_of(
    alloc: Global,
    words: &PageWords<'_>,
    survey: &Survey,
    saves: &[Save],
) -> Result<Vec<u8>, AllocError>
    ensures { IfOk result (λ text. text.items ≡ front_text (words_of words.now) survey.now (map save_of saves.now)) }
{
    let mut text = begin(alloc)?;
    push_page(&mut text, words, survey)?;
    push_saves(&mut text, saves)?;
    Ok(text)
}

/// Prints what stands before the rows of records: the first text of the template, what the page is of, and the saves in the order given.
///
/// `Own`: there was no memory for it, and nothing is printed. `Output`: the output failed, and a front of it is printed.
pub fn print_front<O: Sink>(
    alloc: Global,
    words: &PageWords<'_>,
    survey: &Survey,
    saves: &[Save],
    out: &mut O,
) -> Result<(), VisitorRefused<AllocError>>
    ensures printed { HasPrinted (front_text (words_of words.now) survey.now (map save_of saves.now)) (O.taken out.old) (O.taken out.new) result }
    ensures cause { HasOutputCause (O.faults out.old) (O.faults out.new) (result ≡ Err Output) }
{
    match front_of(alloc, words, survey, saves) {
        Ok(text) => print_text(text.as_slice(), out),
        Err(none) => Err(VisitorRefused::Own(none)),
    }
}
