// The laws of playback: what a query, the table of sources, and an operator's orders give of a history.
//
// The table of sources is a fold over lines, of any reading that gives a name, a count and whether the line is good.
// A line without a source counts for `-`, and shares its row with a source of that very name.
ghost use Rattle.std.specs.Prelude.{◌≡◌, ◌<◌, [], ◌∷◌, ◌++◌, ℕ, List, All, Some, false, filter};
ghost use Rattle.vdr_terms.specs.Order.{AreInOrder};
ghost use Rattle.vdr_terms.specs.Queries.{Query, Span, matches, meets};
ghost use Rattle.vdr_terms.specs.Queries.Medium.{WindowOf};
ghost use Rattle.vdr_terms.specs.Records.{Record};
ghost use Rattle.vdr_terms.specs.Windows.{window};
ghost use Rattle.vdr_core.specs.Histories.{Event, MayCome, Opening, all_records, records_of_act};
ghost use Rattle.vdr_durability.specs.Retention.{Retains};
ghost use Rattle.vdr_durability.specs.Playback.{IsSummarised, Summarised, found, medium_of, pins_on, records_of_parts, selected, span_of, that_meet};
ghost use Rattle.vdr_durability.specs.Replies.{LongTermHasTheLast, Order, Reply, act_of, reply};
ghost use Rattle.vdr_durability.specs.Sources.{AreRows, Line, Reading, Row, lines_of, table_of};

/// Playback of a medium. What a query selects is found by testing each record's second or place, its channels and its utc. A
/// medium that retains its window and the live incidents, however much more it holds, gives exactly what the query selects of
/// the whole history, in order of place; and a part of it whose summary does not meet the query gives nothing, so that the parts
/// that meet it give the same as all.
pub fn law_of_playback()
    ensures tested { (opening : Opening) (events : List Event) (query : Query)
        → found query (span_of opening events query.medium) (all_records opening (medium_of query.medium) events) ≡ selected opening events query }
    ensures retained { (opening : Opening) (events : List Event) (query : Query) (held : List Record)
        → AreInOrder (all_records opening (medium_of query.medium) events) → AreInOrder held
        → Retains (opening.settings.seconds (medium_of query.medium)) (pins_on opening events (medium_of query.medium)) (all_records opening (medium_of query.medium) events) held
        → found query (span_of opening events query.medium) held ≡ selected opening events query }
    ensures window { (opening : Opening) (events : List Event) (query : Query) (m : ℕ) (held : List Record) → query.medium ≡ WindowOf m
        → AreInOrder (all_records opening m events) → AreInOrder held
        → Retains (opening.settings.seconds m) (pins_on opening events m) (all_records opening m events) held
        → filter (matches query) (window (opening.settings.seconds m) held) ≡ selected opening events query }
    ensures order { (opening : Opening) (events : List Event) (query : Query)
        → AreInOrder (all_records opening (medium_of query.medium) events) → AreInOrder (selected opening events query) }
    ensures parts { (query : Query) (span : Span) (before behind : List Record)
        → found query (Some span) (before ++ behind) ≡ found query (Some span) before ++ found query (Some span) behind }
    ensures left_out { (query : Query) (span : Span) (part : Summarised) → IsSummarised part → meets query span part.summary ≡ false
        → found query (Some span) part.records ≡ [] }
    ensures that_meet { (query : Query) (span : Span) (parts : List Summarised) → All IsSummarised parts
        → found query (Some span) (records_of_parts (that_meet query span parts)) ≡ found query (Some span) (records_of_parts parts) }
{}

/// The table of sources, line by line, has one row for each source that has a line, in order; there is one such table; and the
/// lines of records come one after the other.
pub fn law_of_sources()
    ensures rows { (lines : List Line) → AreRows lines (table_of lines) }
    ensures one { (lines : List Line) (rows others : List Row) → AreRows lines rows → AreRows lines others → rows ≡ others }
    ensures lines { (read : List ℕ → List Reading) (before behind : List Record) → lines_of read (before ++ behind) ≡ lines_of read before ++ lines_of read behind }
{}

/// The orders of control lines: each is one event that may come after those before it, a save or a release where it is granted,
/// else a look; and none records anything.
pub fn law_of_orders()
    ensures event { (media : List ℕ) (opening : Opening) (events : List Event) (order : Order) → 0 < opening.settings.incident_seconds → LongTermHasTheLast opening
        → MayCome opening events (act_of opening events order (reply media opening events order)) }
    ensures silent { (opening : Opening) (events : List Event) (order : Order) (answer : Reply) → records_of_act (act_of opening events order answer) ≡ [] }
{}
