// What opening reads of recorded media, and how they are refused.
ghost use Rattle.vdr_outside.specs.Disk.{Image};
ghost use Rattle.vdr_command.specs.Opened.{OneAnswer};

use vdr_opening::{law_of_contents, law_of_parts, law_of_refusals};

/// What opening reads of media, and how it refuses them, has one answer. Of legible media it is so much of what they hold.
pub fn law_of_openings()
    ensures { (image : Image) → OneAnswer image }
{
    law_of_contents();
    law_of_parts();
    law_of_refusals();
}
