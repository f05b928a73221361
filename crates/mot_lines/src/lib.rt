//! The lines of an input, what each asks for, and the lines of replies.
#![tactic(auto)]

mod export;
mod hand;
mod line;
mod line_end;
mod text;

pub use export::export_laws;
pub use hand::Hand;
pub use line::{
    Line, MAX_LINE, MAX_PACKETS, Verb, cut_word, four_words, parse_content, parse_line,
};
pub use line_end::cut_at_line_end;
pub use mot_groups::SegmentBytes;
pub use text::{
    LINE_ROOM, PACKET_LINE_ROOM, PacketLine, TextLine, carousel_text, done_text, object_text,
    period_text, put_text, refusal_text, set_packet_text,
};
