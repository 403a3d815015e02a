//! The fields of the record that was read last.

ghost use Rattle.std.specs.Prelude.{◌≡◌};

use std::alloc::Allocator;
use std::marker::Model;
use warc_field::Fields;
use warc_frame::Decoder;

/// Fields that are no longer needed, in whose memory the next head can be read. Contracts see nothing of them.
#[derive(Drop)]
pub(crate) struct SpareFields<A: Allocator> {
    fields: Option<Fields<A>>,
}

impl<A: Allocator> Model for SpareFields<A> {
    ghost use Rattle.std.specs.Prelude.{◌≡◌};

    ghost Value = { Unit };

    ghost view = { λ _. tt };
}

impl<A: Allocator + Copy> SpareFields<A> {
    /// None are there yet.
    pub(crate) fn none() -> SpareFields<A> {
        SpareFields { fields: None }
    }

    /// Keeps these in place of others.
    pub(crate) fn keep(&mut self, fields: Fields<A>) {
        self.fields = Some(fields);
    }

    /// Gives them to the decoder, if there are any.
    pub(crate) fn hand_on(&mut self, decoder: &mut Decoder<A>)
        ensures { decoder.new ≡ decoder.old }
    {
        if let Some(fields) = self.fields.take() {
            decoder.recycle(fields);
        }
    }
}
