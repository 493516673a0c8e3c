//! What is known of what socket pairs carry: channels, which grow by what is sent.

ghost use Rattle.std.specs.Prelude.{◌≡◌, ◌≤◌, length};

use call_facts::{Passed, first_operand, passed_by, second_operand};
use certificate::{
    Bound, Cert, Channel, Domain, End, Held, Interval, Refusal, Target, Version, push_channels,
};
use instruction_set::{Instruction, Operand, Syscall};
use rights::limits::MAX_DESCRIPTORS;
use std::alloc::{AllocError, Global};
use transfer::{operand_interval, unknown_held};

/// Channels in their order, and the certificate that has them alone, by which instructions are looked at.
#[derive(Drop)]
pub(crate) struct Channels {
    lines: Vec<Channel>,
    pub cert: Cert,
    pub changed: bool,
}

/// What a slot holds that may be open, if an operand may name its number.
fn named_held(bound: &Bound, interval: Interval, number: u32) -> Option<Held> {
    if number < interval.low() || interval.high() < number {
        return None;
    }
    bound.slot(number).held()
}

/// The end that a slot may be of, if an operand may name its number.
fn named_end(bound: &Bound, interval: Interval, number: u32) -> Option<End> {
    match named_held(bound, interval, number)?.target() {
        Target::Socket(class, side) => Some(End::new(class, side)),
        Target::InGrant(_) | Target::AnyNode | Target::Unknown => None,
    }
}

/// Where the channel of what an end sends stands among these, or would.
fn index_of(lines: &[Channel], end: &End) -> usize
    ensures { result ≤ length lines.now }
{
    for (place, line) in lines.iter().enumerate() {
        if !end.compare(&line.end()).is_gt() {
            return place;
        }
    }
    lines.len()
}

impl Channels {
    /// No channels, as a certificate of this version tells them.
    pub(crate) fn new(alloc: Global, version: Version) -> Channels {
        Channels {
            lines: Vec::new(alloc),
            cert: Cert::new(alloc, version),
            changed: false,
        }
    }

    /// The channels in their order.
    pub(crate) fn lines(&self) -> &[Channel] {
        &self.lines
    }

    /// What comes by an end, if anything may come.
    pub(crate) fn received(&self, end: &End) -> Option<Held> {
        let other = end.other();
        match self.lines.get(index_of(&self.lines, &other)) {
            Some(line) if other.compare(&line.end()).is_eq() => line.sends(),
            _ => None,
        }
    }

    /// Lets anything be sent from an end, and has the other side's channel too.
    pub(crate) fn open_end(&mut self, alloc: Global, end: End) -> Result<(), Refusal> {
        let before = self.changed;
        self.changed = false;
        if self.add(end, Some(unknown_held())).is_err() || self.add(end.other(), None).is_err() {
            return Err(Refusal::Memory);
        }
        self.keep_lines(alloc)?;
        self.changed = self.changed || before;
        Ok(())
    }

    /// Makes the certificate of the channels again, where one changed.
    fn keep_lines(&mut self, alloc: Global) -> Result<(), Refusal> {
        if self.changed {
            let mut cert = Cert::new(alloc, self.cert.version());
            push_channels(&mut cert, &self.lines)?;
            self.cert = cert;
        }
        Ok(())
    }

    /// Lets what is sent from an end be this too, as the certificate tells it.
    fn add(&mut self, end: End, sends: Option<Held>) -> Result<(), AllocError> {
        let sends = match sends {
            None => None,
            Some(held) => Some(held.told_in(self.cert.version())),
        };
        let at = index_of(&self.lines, &end);
        if let Some(line) = self.lines.get_mut(at) {
            if end.compare(&line.end()).is_eq() {
                if !sends.within(&line.sends()) {
                    *line = Channel::new(end.class(), end.side(), line.sends().join(&sends));
                    self.changed = true;
                }
                return Ok(());
            }
        }
        self.changed = true;
        self.lines
            .insert(at, Channel::new(end.class(), end.side(), sends))?;
        Ok(())
    }

    /// Lets it be each slot of a number in an interval.
    fn add_sent(&mut self, bound: &Bound, end: End, sent: Interval) -> Result<(), AllocError> {
        self.add(end, None)?;
        for number in 0..MAX_DESCRIPTORS as u32 {
            if let Some(held) = named_held(bound, sent, number) {
                self.add(end, Some(held))?;
            }
        }
        Ok(())
    }

    /// Learns what is sent from a point with a bound.
    fn learn_sent(
        &mut self,
        bound: &Bound,
        descriptor: Operand,
        sent: Operand,
    ) -> Result<(), AllocError> {
        let interval = operand_interval(bound, descriptor);
        let sent = operand_interval(bound, sent);
        for number in 0..MAX_DESCRIPTORS as u32 {
            if let Some(end) = named_end(bound, interval, number) {
                self.add_sent(bound, end, sent)?;
            }
        }
        Ok(())
    }

    /// Learns what is received there.
    fn learn_received(&mut self, bound: &Bound, descriptor: Operand) -> Result<(), AllocError> {
        let interval = operand_interval(bound, descriptor);
        for number in 0..MAX_DESCRIPTORS as u32 {
            if let Some(end) = named_end(bound, interval, number) {
                self.add(end.other(), None)?;
            }
        }
        Ok(())
    }

    /// Learns what a call sends or receives there.
    fn learn_call(&mut self, bound: &Bound, call: &Syscall) -> Result<(), AllocError> {
        let Some(descriptor) = first_operand(call) else {
            return Ok(());
        };
        match (passed_by(call.call()), second_operand(call)) {
            (Passed::DescriptorOut, Some(sent)) => self.learn_sent(bound, descriptor, sent),
            (Passed::DescriptorIn, _) => self.learn_received(bound, descriptor),
            _ => Ok(()),
        }
    }

    /// Learns what an instruction sends or receives, and makes the certificate of the channels again where one changed.
    pub(crate) fn learn(
        &mut self,
        alloc: Global,
        bound: &Bound,
        instruction: &Instruction,
    ) -> Result<(), Refusal> {
        let Instruction::Invoke { call, .. } = instruction else {
            return Ok(());
        };
        let before = self.changed;
        self.changed = false;
        if self.learn_call(bound, call).is_err() {
            return Err(Refusal::Memory);
        }
        self.keep_lines(alloc)?;
        self.changed = self.changed || before;
        Ok(())
    }
}
