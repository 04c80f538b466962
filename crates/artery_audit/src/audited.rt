use crate::merge::Merge;
use artery_base::UniqueAddress;
use artery_judge::Law;

/// What an audit finds.
#[derive(Drop)]
pub enum Audited<'a> {
    /// Some merge of the parts is lawful: the one in which each next line is that of the first part, in the order given, whose next
    /// line breaks no law after the lines before.
    Lawful {
        merge: Merge<'a>,
    },
    /// None is. Of the parts that no lawful merge uses up `of` names the first in the order given, `line` is the number of its first
    /// line that none reaches, counted from 1 in that part, and `law` the first law that this line breaks behind all that can be
    /// reached.
    Broken {
        of: &'a UniqueAddress,
        line: u64,
        law: Law,
    },
}
