// What holds of evidence files.
ghost use Rattle.vdr_evidence.specs.Laws.{EvidenceIsWritten, OneContent};

/// What is written of records as they come is their evidence file, and one file is that of one heading and of one list of records.
pub fn law_of_evidence()
    ensures written { EvidenceIsWritten }
    ensures one { OneContent }
{}
