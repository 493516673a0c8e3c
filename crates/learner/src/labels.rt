//! Of what the label for a call is made, and what is told of it beside its instruction.

use crate::automata::Choice;
use crate::room::Room;
use texts::{Say, parts_of};

/// How long what a label is made of is at most; a number may stand behind it.
const MOST_OF_LABEL: usize = 12;

/// Whether a byte may stand in a label.
fn is_of_label(byte: u8) -> bool {
    matches!(byte, b'a'..=b'z' | b'0'..=b'9' | b'_')
}

/// Adds the bytes of a text that may stand in a label, up to its greatest length.
fn add_to_label(room: &mut Room, label: &mut Vec<u8>, text: &[u8]) {
    for byte in text {
        let byte = byte.to_ascii_lowercase();
        if label.len() < MOST_OF_LABEL && is_of_label(byte) {
            room.push(label, byte);
        }
    }
}

/// What a label for a call is made of.
pub(crate) fn label_of(room: &mut Room, choice: &Choice) -> Vec<u8> {
    let mut label = room.list();
    add_to_label(room, &mut label, choice.step.call.as_bytes());
    if !choice.step.about.is_empty() {
        add_to_label(room, &mut label, b"_");
        add_to_label(room, &mut label, &choice.step.about);
    }
    label
}

/// What is told of a call.
pub(crate) fn remark_of(room: &mut Room, choice: &Choice) -> Vec<u8> {
    let place = choice.step.place.as_slice();
    if choice.step.line == 0 {
        room.copy(b"planned")
    } else if place.is_empty() {
        room.text(parts_of!("line ", choice.step.line))
    } else {
        room.text(parts_of!("line ", choice.step.line, ": ", place))
    }
}
