// The laws of supervision: what records show is told record by record, and by the last heartbeats.
ghost use Rattle.std.specs.Prelude.{◌≡◌, ◌++◌, ◌∷◌, [], List};
ghost use Rattle.vdr_terms.specs.Records.{Record};
ghost use Rattle.vdr_watch.specs.Signs.{Sign};
ghost use Rattle.vdr_watch.specs.Supervision.{AreLatest, latest, met_in};
ghost use Rattle.vdr_watch.specs.Texts.{record_text, records_text};

/// The last heartbeats, for which the end of the records stands as one more, are just the predecessors that it would have there, one for each
/// source, by group and then source.
pub fn law_of_latest()
    ensures { (met : List Sign) → AreLatest met (latest met) }
{}

/// What records show is what each of them shows behind those before it.
pub fn law_of_watch()
    ensures none { records_text [] [] ≡ [] }
    ensures one_more { (before : List Record) (r : Record) → records_text [] (before ++ r ∷ []) ≡ records_text [] before ++ record_text (met_in before) r }
{}
