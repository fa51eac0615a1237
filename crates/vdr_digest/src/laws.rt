// What holds of digests.
ghost use Rattle.vdr_digest.specs.Laws.{DigestIsPrinted, HoursAgree, HoursHaveLines};

/// What a digester prints of records is their digest, a function of them alone.
pub fn law_of_digests()
    ensures { DigestIsPrinted }
{}

/// Where ticks never fall each hour has one line, of all its records. So two media that show one history give one line for each hour
/// that lies whole in both.
pub fn law_of_hours()
    ensures lines { HoursHaveLines }
    ensures agree { HoursAgree }
{}
