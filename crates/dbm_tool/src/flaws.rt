// Which page of a damaged file is wrong, in words.
ghost use Rattle.std.specs.Prelude.{◌≡◌, OnOk};
ghost use Rattle.std.specs.Io.KnownBytes.{Appends};
ghost use Rattle.dbm_tool.specs.Flaws.{damage_words, rule_words};

use dbm_command_line::help_text::DAMAGED_WORDS;
use dbm_file::{Flaw, Rule};
use std::io::{self, Write};

/// Writes the page and the rule that it breaks, where they are known, and else that the file is
/// damaged.
pub fn write_damage<F: Write>(faults: &mut F, flaw: Option<Flaw>) -> io::Result<()>
    ensures { OnOk result (Appends (F.contents faults.old) (F.contents faults.new)
        (damage_words flaw)) }
{
    match flaw {
        Some(flaw) => write!(faults, "page {}: {}", flaw.page, rule_words(flaw.rule)),
        None => faults.write_all(DAMAGED_WORDS.as_bytes()),
    }
}

/// What is wrong with a page that breaks the rule.
fn rule_words<'a>(rule: Rule) -> &'a str
    ensures { result.now ≡ rule_words rule }
{
    match rule {
        Rule::Meta => "it is no meta page of the format",
        Rule::Limit => "the file has more pages than its limit asks for",
        Rule::Outside => "the file has no such page",
        Rule::Twice => "it stands in two places",
        Rule::Segment => "it is no segment page of these buckets",
        Rule::Head => "it is no head page of a bucket",
        Rule::Overflow => "it is no overflow page",
        Rule::Empty => "it is an overflow page that has no pair",
        Rule::Slots => "its header or its slots break the format",
        Rule::Bucket => "a pair stands there that is in another bucket",
        Rule::Key => "a key stands there twice, here and on an earlier page of its bucket",
        Rule::Content => "it is no content page, or has other bytes than zeros behind its content",
        Rule::ContentShort => "a content ends there too soon",
        Rule::ContentLong => "a content goes on there behind its end",
        Rule::Free => "it is no free page",
        Rule::FreeCount => "the free list is longer or shorter than it counts",
        Rule::PairCount => "there are more or fewer pairs than it counts",
        Rule::Unused => "no other page leads to it",
    }
}
