ghost use Rattle.std.specs.Prelude.{◌≡◌, true};
ghost use Rattle.command_replies.specs.ShortRecords.{are_short, have_sums};

use osc_base::Text;
use record_text::Record;

/// What is written.
#[derive(Drop)]
pub enum Body {
    Text(Text),
    Record(ShortRecord),
}

/// A record whose values have at most 18 digits, and whose sums take all its rules, so that it can be written.
#[derive(Drop)]
pub struct ShortRecord {
    pub claim: Record,
    pub ghost short: { are_short claim.lines ≡ true },
    pub ghost sums: { have_sums claim.lines claim.picks ≡ true },
}
