// What holds of evidence, and of files that are none.
ghost use Rattle.vdr_verify.specs.Laws.{NoEvidenceStops, OneContent, WrittenIsEvidence};

/// What `evidence` writes of a legal heading and of the records that it asks for is evidence of these and of nothing else, and no such
/// file is refused.
pub fn law_of_verification()
    ensures written { WrittenIsEvidence }
    ensures one { OneContent }
    ensures accepted { NoEvidenceStops }
{}
