//! The text of a line, to be written.

ghost use Rattle.std.specs.Prelude.{◌≡◌, ◌+◌, ◌++◌, ◌∷◌, ◌<◌, ◌≤◌, [], codes, length, true};
ghost use Rattle.std.specs.Fmt.{decimal};
ghost use Rattle.rights.specs.Sets.{all_commands, is_within};
ghost use Rattle.texts.specs.Bytes.{space};
ghost use Rattle.texts.specs.Hex.{hex_text};
ghost use Rattle.texts.specs.Parts.{joined};
ghost use Rattle.certificate.specs.Lines.{Bounds_channel, Bounds_grant, Bounds_slot};
ghost use Rattle.rights.specs.Views.{side_seen};
ghost use Rattle.certificate.specs.Views.{ceiling_of, channel_of, class_of, held_end_of, held_of, interval_of, line_of, mode_of, slot_of, target_of, version_of};
ghost use Rattle.texts.specs.Views.{name_of};
ghost use Rattle.certificate_text.specs.KeywordViews.{keyword_text};
ghost use Rattle.certificate_text.specs.Spaced.{spaced};
ghost use Rattle.certificate_text.specs.Texts.{class_word, further_word, held_words, if_further, line_words, mode_word, plain_word, register_letter, side_word};
ghost use Rattle.certificate_text.specs.Texts.{slot_words, target_words};

use crate::gathering::Room;
use crate::keywords::Keyword;
use bitflags::Flags;
use certificate::{
    Ceiling, Channel, Class, End, Held, Interval, Line, ModeBound, RightsRange, Side, Slot, Target,
    Version,
};
use rights::{Fcntls, Rights};
use texts::{Decimal, Name, eight_digits, four_digits, one_digit};

/// Adds a number in decimal digits.
fn push_digits(room: &mut Room, number: u32)
    requires { length room.old + 10 ≤ 16384 }
    ensures digits { room.new ≡ room.old ++ decimal number }
    ensures few { length room.new ≤ length room.old + 10 }
{
    room.push(Decimal::new(number).as_bytes())
}

/// Adds a space and a word.
fn push_word(room: &mut Room, word: &[u8])
    requires { length room.old + length word.now < 16384 }
    ensures { room.new ≡ room.old ++ space ∷ word.now }
{
    room.push_byte(b' ');
    room.push(word);
}

/// Adds a space and a number.
fn push_number(room: &mut Room, number: u32)
    requires { length room.old + 11 ≤ 16384 }
    ensures number { room.new ≡ room.old ++ space ∷ decimal number }
    ensures few { length room.new ≤ length room.old + 11 }
{
    room.push_byte(b' ');
    push_digits(room, number);
}

/// The word of a mode.
fn mode_keyword(mode: ModeBound) -> Keyword
    ensures { keyword_text result ≡ mode_word (mode_of mode) }
{
    match mode {
        ModeBound::Off => Keyword::Off,
        ModeBound::On => Keyword::On,
        ModeBound::Either => Keyword::Maybe,
    }
}

/// The word of a side.
fn side_keyword(side: Side) -> Keyword
    ensures { keyword_text result ≡ side_word (side_seen side) }
{
    match side {
        Side::A => Keyword::A,
        Side::B => Keyword::B,
    }
}

/// Adds a space and a class of socket pairs.
fn push_class(room: &mut Room, class: &Class)
    requires { length room.old + 28 ≤ 16384 }
    ensures class { room.new ≡ room.old ++ space ∷ class_word (class_of class.now) }
    ensures few { length room.new ≤ length room.old + 28 }
{
    match class {
        Class::Initial(pair) => {
            room.push(b" @");
            push_digits(room, u32::from(pair.number()));
        }
        Class::MadeAt(program, point) => {
            push_word(room, program.as_bytes());
            room.push_byte(b':');
            push_digits(room, u32::from(*point));
        }
    }
}

/// Adds the words of an end of a pair, each behind a space.
fn push_end(room: &mut Room, class: &Class, side: Side)
    requires { length room.old + 36 ≤ 16384 }
    ensures words { room.new ≡ room.old ++ spaced (class_word (class_of class.now) ∷ side_word (side_seen side) ∷ []) }
    ensures few { length room.new ≤ length room.old + 36 }
{
    push_class(room, class);
    push_word(room, side_keyword(side).as_bytes());
}

/// Adds what a descriptor is of, each word behind a space.
fn push_target(room: &mut Room, target: &Target)
    requires { length room.old + 50 ≤ 16384 }
    ensures words { room.new ≡ room.old ++ spaced (target_words (target_of target.now)) }
    ensures few { length room.new ≤ length room.old + 50 }
{
    match target {
        Target::InGrant(name) => {
            room.push(b" grant");
            push_word(room, name.as_bytes());
        }
        Target::AnyNode => room.push(b" any"),
        Target::Socket(class, side) => {
            room.push(b" sock");
            push_end(room, class, *side);
        }
        Target::Unknown => room.push(b" unknown"),
    }
}

/// Adds a space and those of a set of rights that are of the fourteen.
fn push_plain(room: &mut Room, rights: Rights)
    requires { length room.old + 5 ≤ 16384 }
    ensures rights { room.new ≡ room.old ++ space ∷ plain_word rights.0 }
    ensures few { length room.new ≡ length room.old + 5 }
{
    push_word(room, &four_digits(rights.plain_part()));
}

/// Adds a space and the further rights of a set.
fn push_further(room: &mut Room, rights: Rights)
    requires { length room.old + 9 ≤ 16384 }
    ensures rights { room.new ≡ room.old ++ space ∷ further_word rights.0 }
    ensures few { length room.new ≡ length room.old + 9 }
{
    push_word(room, &eight_digits(rights.further_part()));
}

/// Adds a space and a set of commands.
fn push_commands(room: &mut Room, fcntls: Fcntls)
    requires known { is_within fcntls.0 all_commands ≡ true }
    requires few { length room.old + 2 ≤ 16384 }
    ensures commands { room.new ≡ room.old ++ space ∷ hex_text 1 fcntls.0 }
    ensures few { length room.new ≡ length room.old + 2 }
{
    room.push_byte(b' ');
    room.push_byte(one_digit(fcntls.bits()));
}

/// Adds the further rights of the least and of the greatest set, each behind a space, in a version that tells of them.
fn push_told(room: &mut Room, version: Version, rights: RightsRange)
    requires { length room.old + 18 ≤ 16384 }
    ensures words { room.new ≡ room.old
        ++ spaced (if_further (version_of version) (further_word rights.least.0 ∷ further_word rights.greatest.0 ∷ [])) }
    ensures few { length room.new ≤ length room.old + 18 }
{
    if version.tells_further() {
        push_further(room, rights.least());
        push_further(room, rights.greatest());
    }
}

/// Adds what is said of a descriptor, each word behind a space.
fn push_held(room: &mut Room, version: Version, held: &Held)
    requires { length room.old + 82 ≤ 16384 }
    ensures words { room.new ≡ room.old ++ spaced (held_words (version_of version) (held_of held.now)) }
    ensures few { length room.new ≤ length room.old + 82 }
{
    let (rights, fcntls) = (held.rights(), held.fcntls());
    push_target(room, &held.target());
    push_plain(room, rights.least());
    push_plain(room, rights.greatest());
    push_commands(room, fcntls.least());
    push_commands(room, fcntls.greatest());
    push_told(room, version, rights);
}

/// Adds the first line of a block.
fn push_block(room: &mut Room, program: &Name, point: u8, mode: ModeBound)
    requires { length room.old + 288 ≤ 16384 }
    ensures line { room.new ≡ room.old ++ joined space (codes "at" ∷ name_of program.now ∷ decimal point ∷ mode_word (mode_of mode) ∷ []) }
    ensures few { length room.new ≤ length room.old + 100 }
{
    room.push(b"at");
    push_word(room, program.as_bytes());
    push_number(room, u32::from(point));
    push_word(room, mode_keyword(mode).as_bytes());
}

/// Adds the line of a register.
fn push_register(room: &mut Room, register: u8, interval: &Interval)
    requires { length room.old + 288 ≤ 16384 }
    ensures line { room.new ≡ room.old
        ++ joined space ((register_letter ∷ decimal register) ∷ decimal (interval_of interval.now).low ∷ decimal (interval_of interval.now).high ∷ []) }
    ensures few { length room.new ≤ length room.old + 100 }
{
    room.push_byte(b'r');
    push_digits(room, u32::from(register));
    push_number(room, interval.low());
    push_number(room, interval.high());
}

/// Adds what a slot is, each word behind a space.
fn push_presence(room: &mut Room, version: Version, slot: &Slot)
    requires { length room.old + 88 ≤ 16384 }
    ensures words { room.new ≡ room.old ++ spaced (slot_words (version_of version) (slot_of slot.now)) }
    ensures few { length room.new ≤ length room.old + 88 }
{
    match slot {
        Slot::Closed => {}
        Slot::Open(held) => {
            room.push(b" open");
            push_held(room, version, held);
        }
        Slot::Maybe(held) => {
            room.push(b" maybe");
            push_held(room, version, held);
        }
    }
}

/// Adds the line of a slot.
fn push_slot(room: &mut Room, version: Version, number: u8, slot: &Slot)
    requires { length room.old + 288 ≤ 16384 }
    ensures line { room.new ≡ room.old ++ joined space (line_words (version_of version) (Bounds_slot number (slot_of slot.now))) }
    ensures few { length room.new ≤ length room.old + 200 }
{
    room.push(b"fd");
    push_number(room, u32::from(number));
    push_presence(room, version, slot);
}

/// Adds the line of a channel.
fn push_channel(room: &mut Room, version: Version, channel: &Channel)
    requires { length room.old + 288 ≤ 16384 }
    ensures line { room.new ≡ room.old ++ joined space (line_words (version_of version) (Bounds_channel (channel_of channel.now))) }
    ensures few { length room.new ≤ length room.old + 200 }
{
    room.push(b"chan");
    push_end(room, &channel.class(), channel.side());
    match channel.sends() {
        None => room.push(b" none"),
        Some(held) => push_held(room, version, &held),
    }
}

/// Adds the first line of an authority.
fn push_authority(room: &mut Room, program: &Name)
    requires { length room.old + 288 ≤ 16384 }
    ensures line { room.new ≡ room.old ++ joined space (codes "auth" ∷ name_of program.now ∷ []) }
    ensures few { length room.new ≤ length room.old + 100 }
{
    room.push(b"auth");
    push_word(room, program.as_bytes());
}

/// Adds the line of a ceiling.
fn push_ceiling(room: &mut Room, version: Version, ceiling: &Ceiling)
    requires { length room.old + 288 ≤ 16384 }
    ensures line { room.new ≡ room.old ++ joined space (line_words (version_of version) (Bounds_grant (ceiling_of ceiling.now))) }
    ensures few { length room.new ≤ length room.old + 100 }
{
    room.push(b"ceil");
    push_word(room, ceiling.grant().as_bytes());
    push_plain(room, ceiling.rights());
    if version.tells_further() {
        push_further(room, ceiling.rights());
    }
}

/// Adds the line of an end that is held.
fn push_hold(room: &mut Room, held: &End)
    requires { length room.old + 288 ≤ 16384 }
    ensures line { room.new ≡ room.old
        ++ joined space (codes "hold" ∷ class_word (held_end_of held.now).class ∷ side_word (held_end_of held.now).side ∷ []) }
    ensures few { length room.new ≤ length room.old + 100 }
{
    room.push(b"hold");
    push_end(room, &held.class(), held.side());
}

/// Adds a line of a certificate of a version, without its line feed.
pub(crate) fn push_line(room: &mut Room, version: Version, line: &Line)
    requires { length room.old + 288 ≤ 16384 }
    ensures line { room.new ≡ room.old ++ joined space (line_words (version_of version) (line_of line.now)) }
    ensures few { length room.new < length room.old + 288 }
{
    match line {
        Line::Block {
            program,
            point,
            mode,
        } => push_block(room, program, *point, *mode),
        Line::Register { register, interval } => push_register(room, *register, interval),
        Line::Slot { number, slot } => push_slot(room, version, *number, slot),
        Line::Channel(channel) => push_channel(room, version, channel),
        Line::Authority(program) => push_authority(room, program),
        Line::Ceiling(ceiling) => push_ceiling(room, version, ceiling),
        Line::Hold(held) => push_hold(room, held),
    }
}
