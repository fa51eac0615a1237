// The laws of showing: which events media show during a commit, a save, an opening, and in a further run.
ghost use Rattle.std.specs.Prelude.{◌≡◌, ◌≤◌, [], ◌∷◌, ◌++◌, ℕ, true, List, Option, Some, All, Contains, length};
ghost use Rattle.vdr_terms.specs.Order.{AreInOrder};
ghost use Rattle.vdr_terms.specs.Records.{Record, last};
ghost use Rattle.vdr_terms.specs.Windows.{window};
ghost use Rattle.vdr_core.specs.Histories.{
  Event,
  Incident,
  IsOpening,
  MayCome,
  MayFollow,
  Opening,
  Settings,
  all_records,
  incidents,
  last_stamp,
  next_place,
  records_of_act,
  table_after,
};
ghost use Rattle.vdr_core.specs.Histories.Act.{Commit, Save, Release};
ghost use Rattle.vdr_core.specs.Taken.{Captured};
ghost use Rattle.vdr_durability.specs.Regular.{FollowOn};
ghost use Rattle.vdr_durability.specs.Retention.{at_places};
ghost use Rattle.vdr_durability.specs.Readings.{
  AreLevel,
  AreMembers,
  EndsMeet,
  IsPassedOn,
  Reading,
  ends_before,
  lead,
  leading_batch,
  records_on,
  restored,
};
ghost use Rattle.vdr_durability.specs.Shown.{GoesOnFrom, IsReconciled, RetainsOn, Shows, given_with, opened};

/// Level media show the events that they retain. As soon as the leading medium has a commit's batch, and while it goes to the
/// others one after another, the media show the events with the commit; before it they show those without. An event that
/// brings no record and changes no incident shows at once.
pub fn law_of_commits()
    ensures level { (members : List ℕ) (opening : Opening) (events : List Event) (reading : Reading)
        → AreMembers members → Contains members 1 → reading.text ≡ opening.settings.text → reading.table ≡ incidents opening events
        → AreLevel members reading → All (λ m. AreInOrder (records_on reading m)) members
        → All (RetainsOn opening.settings (incidents opening events) (given_with opening events) (records_on reading)) members
        → Shows members opening events reading }
    ensures passed { (members given waiting : List ℕ) (opening : Opening) (events : List Event) (records : List Record) (taken : List Captured) (moment : Option ℕ) (reading : Reading)
        → AreMembers members → Contains members 1 → reading.text ≡ opening.settings.text → reading.table ≡ incidents opening events
        → IsPassedOn members given waiting records reading → All (λ m. FollowOn (last (all_records opening m events)) records) members
        → All (RetainsOn opening.settings (incidents opening events) (λ m. all_records opening m events ++ records) (records_on reading)) given
        → All (RetainsOn opening.settings (incidents opening events) (given_with opening events) (records_on reading)) waiting
        → Shows members opening (events ++ record { act = Commit records taken; moment = moment } ∷ []) reading }
    ensures silent { (members : List ℕ) (opening : Opening) (events : List Event) (e : Event) (reading : Reading)
        → records_of_act e.act ≡ [] → table_after (all_records opening 1 events) (incidents opening events) e.act ≡ incidents opening events
        → Shows members opening events reading → Shows members opening (events ++ e ∷ []) reading }
{}

/// A save or a release shows as soon as its slot of the table is written: the records of the save are already on the
/// long-term medium, since an incident is no longer than its window.
pub fn law_of_saves()
    ensures saved { (members : List ℕ) (opening : Opening) (events : List Event) (moment : Option ℕ) (reading : Reading) (id : ℕ) (label : List ℕ) (a b : ℕ)
        → opening.settings.incident_seconds ≤ opening.settings.seconds 1 → AreInOrder (all_records opening 1 events)
        → MayCome opening events (Save id label a b) → Shows members opening events reading
        → Shows members opening (events ++ record { act = Save id label a b; moment = moment } ∷ [])
        (record reading { table = table_after (all_records opening 1 events) (incidents opening events) (Save id label a b) }) }
    ensures released { (members : List ℕ) (opening : Opening) (events : List Event) (moment : Option ℕ) (reading : Reading) (id : ℕ)
        → Shows members opening events reading
        → Shows members opening (events ++ record { act = Release id; moment = moment } ∷ [])
        (record reading { table = table_after (all_records opening 1 events) (incidents opening events) (Release id) }) }
{}

/// What was opened shows itself, with no events yet: while the last batch goes to the media that lack it, and once they are
/// level. A segment may make room for the batch, so a medium need not have all that it had.
pub fn law_of_openings()
    ensures reconciling { (members given waiting : List ℕ) (settings : Settings) (before reading : Reading) (batch : List Record)
        → AreMembers members → Contains members 1 → reading.text ≡ settings.text → reading.table ≡ before.table
        → leading_batch members before ≡ Some batch → IsPassedOn members given waiting batch reading → AreInOrder batch
        → All (λ m. (ends_before (Some batch) (before.batches m) ≡ true) × FollowOn (last (records_on before m)) batch) waiting
        → All (RetainsOn settings before.table (records_on (restored members before)) (records_on reading)) given
        → All (RetainsOn settings before.table (records_on before) (records_on reading)) waiting
        → Shows members (opened members settings before) [] reading }
    ensures reconciled { (members : List ℕ) (settings : Settings) (before reading : Reading)
        → AreMembers members → Contains members 1 → before.text ≡ settings.text → IsReconciled members settings before reading
        → All (λ m. AreInOrder (records_on reading m)) members → Shows members (opened members settings before) [] reading }
    ensures restored { (members : List ℕ) (settings : Settings) (before reading : Reading)
        → AreMembers members → Contains members 1 → reading.text ≡ settings.text → reading.table ≡ before.table → EndsMeet members reading
        → All (RetainsOn settings before.table (records_on (restored members before)) (records_on (restored members reading))) members
        → Shows members (opened members settings before) [] reading }
{}

/// What a further run meets of media that show some events: each medium's window and the places of each live incident are those
/// of the events, and the run goes on where these end.
pub fn law_of_further_runs()
    ensures window { (members : List ℕ) (opening : Opening) (events : List Event) (reading : Reading) → Shows members opening events reading → (m : ℕ) → Contains members m
        → AreInOrder (all_records opening m events) → AreInOrder (records_on (restored members reading) m)
        → window (opening.settings.seconds m) (records_on (restored members reading) m) ≡ window (opening.settings.seconds m) (all_records opening m events) }
    ensures places { (members : List ℕ) (opening : Opening) (events : List Event) (reading : Reading) → Shows members opening events reading → (incident : Incident)
        → Contains (incidents opening events) (Some incident) → AreInOrder (all_records opening 1 events) → AreInOrder (records_on (restored members reading) 1)
        → at_places incident.a incident.b (records_on (restored members reading) 1) ≡ at_places incident.a incident.b (all_records opening 1 events) }
    ensures goes_on { (members : List ℕ) (opening : Opening) (events : List Event) (settings : Settings) (reading : Reading) → Contains members (lead members)
        → GoesOnFrom (lead members) opening → MayFollow opening [] events → Shows members opening events reading
        → ((opened members settings reading).next_place ≡ next_place opening events) × ((opened members settings reading).last ≡ last_stamp opening events) }
    ensures opening { (members : List ℕ) (opening : Opening) (events : List Event) (reading : Reading) → IsOpening opening → Shows members opening events reading
        → IsOpening (opened members opening.settings reading) × GoesOnFrom (lead members) (opened members opening.settings reading) }
{}
