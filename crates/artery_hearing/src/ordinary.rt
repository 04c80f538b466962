//! Ordinary messages.
ghost use Rattle.std.specs.Prelude.{◌≡◌, OnOk};
ghost use Rattle.artery_header.specs.Envelope.{HasTexts, envelope_of};
ghost use Rattle.artery_journal.specs.declared.line.Line.TheVariants as lines;
ghost use Rattle.artery_machine.specs.Parts.{kept};
ghost use Rattle.artery_machine.specs.Doing.{in_bytes, tells_of};
ghost use Rattle.artery_hearing.specs.Heard.{got_on};

use artery_base::{NoMemory, Tell, UniqueAddress};
use artery_header::Envelope;
use artery_journal::Line;
use artery_node::Work;

/// It is told that an ordinary message came on a connection with this nonce.
fn tells_got(
    work: &mut Work,
    v: &UniqueAddress,
    nonce: Option<u64>,
    message: Tell,
) -> Result<(), NoMemory>
    ensures { OnOk result (work.new ≡ tells_of (λ me. lines.Got me v.now nonce message) work.old) }
{
    let of = work.me().clone()?;
    let other = v.clone()?;
    work.tell(Line::Got {
        of,
        other,
        nonce,
        message,
    })
}

/// An ordinary message is told with the nonce of its connection; the tables by which it was written are shown there; and its names are
/// counted.
///
/// Wants that the names are ASCII.
pub(crate) fn got(
    work: &mut Work,
    conn: u64,
    nonce: Option<u64>,
    v: &UniqueAddress,
    envelope: Envelope<'_>,
    message: Tell,
) -> Result<(), NoMemory>
    requires { HasTexts (envelope_of envelope) }
    ensures { OnOk result (work.new ≡ got_on conn nonce v.now (envelope_of envelope.entry) message work.old) }
{
    tells_got(work, v, nonce, message)?;
    work.shows(conn, v, envelope);
    work.counts_names(v, envelope)
}
