//! The channels of a certificate that a call uses.

ghost use Rattle.std.specs.Prelude.{◌≡◌, option_map};
ghost use Rattle.rights.specs.Sides.{other_side};
ghost use Rattle.rights.specs.Views.{side_seen};
ghost use Rattle.certificate.specs.Views.{bound_of, channel_of, channels_of, class_of, target_of};
ghost use Rattle.instruction_set.specs.Views.{syscall_of};
ghost use Rattle.rules.specs.Channels.{all_have_channels, channel_at, has_channel, line_in, receives_known, sends_known};
ghost use Rattle.rules.specs.Uses.{uses, uses_through};
ghost use Rattle.transfer.specs.Views.{through_of};

use crate::asks::{UseTest, through_passes};
use crate::uses::{Need, Needs, Passed, Through, needed};
use certificate::{Bound, Cert, Channel, Class, Held, Side, Target};
use instruction_set::Syscall;

/// The first of these channels that is of this class and side.
fn line_among<'a>(channels: &'a [Channel], class: &Class, side: Side) -> Option<&'a Channel>
    ensures { option_map (λ c. (channel_of c.now).sends) result
        ≡ line_in (channels_of channels.now) (class_of class.now) (side_seen side) }
{
    match channels {
        [] => None,
        [first, rest @ ..] => {
            if first.class().is(class) && first.side().is(side) {
                return Some(first);
            }
            line_among(rest, class, side)
        }
    }
}

/// The channel of a class and side, if the certificate lists it. (own)
#[tactic(auto, unfolding(rules::specs::Channels::channel_at))]
pub fn channel_at<'a>(cert: &'a Cert, class: &Class, side: Side) -> Option<&'a Channel>
    ensures { option_map (λ c. (channel_of c.now).sends) result
        ≡ channel_at cert.now (class_of class.now) (side_seen side) }
{
    line_among(cert.channels(), class, side)
}

/// Whether the channel has a line that is sent into here; nothing of unknown kind has one.
fn sends_known(cert: &Cert, target: &Target) -> bool
    ensures { result ≡ sends_known cert.now (target_of target.now) }
{
    match target {
        Target::InGrant(_) | Target::AnyNode => true,
        Target::Socket(class, side) => channel_at(cert, class, *side).is_some(),
        Target::Unknown => false,
    }
}

/// Whether the channel has a line that is received from here. What comes from a slot of unknown kind is unknown itself.
fn receives_known(cert: &Cert, target: &Target) -> bool
    ensures { result ≡ receives_known cert.now (target_of target.now) }
{
    match target {
        Target::InGrant(_) | Target::AnyNode | Target::Unknown => true,
        Target::Socket(class, side) => channel_at(cert, class, side.other()).is_some(),
    }
}

/// The test whether the channel has a line that a call uses by a slot. (own, after sendmsg(2) and recvmsg(2))
#[derive(Clone, Copy)]
pub struct HasChannel<'a> {
    pub cert: &'a Cert,
}

impl<'a> UseTest for HasChannel<'a> {
    ghost passes = { λ t u. has_channel t.cert.now u u.passing };

    fn asks(&self, _bound: &Bound, need: &Need, _number: u8, held: &Held) -> bool {
        match need.passed {
            Passed::Nothing => true,
            Passed::Sent(_) => sends_known(self.cert, &held.target()),
            Passed::Received => receives_known(self.cert, &held.target()),
        }
    }
}

/// Whether the channels are known that a call uses by an operand, if it goes through one. Where nothing is passed, no slot is looked at.
fn through_has_channels(cert: &Cert, bound: &Bound, through: &Option<Through>) -> bool
    ensures { result ≡ all_have_channels cert.now (uses_through (bound_of bound.now) (option_map through_of through.now)) }
{
    match through {
        None => true,
        Some(used) => match used.need.passed {
            Passed::Nothing => true,
            Passed::Sent(_) | Passed::Received => {
                through_passes(bound, through, &HasChannel { cert })
            }
        },
    }
}

/// Whether the channels are known that a call uses. (own, after sendmsg(2) and recvmsg(2))
pub fn all_have_channels(cert: &Cert, bound: &Bound, call: &Syscall) -> bool
    ensures { result ≡ all_have_channels cert.now (uses (bound_of bound.now) (syscall_of call.now)) }
{
    let needs = needed(call);
    through_has_channels(cert, bound, &needs.first)
        && through_has_channels(cert, bound, &needs.second)
}
