//! What arrays and strings hold.

ghost use Rattle.ps_store.specs.declared.object.PsObj.{PsObj};
ghost use Rattle.ps_store.specs.Hashed.{text_hash};
ghost use Rattle.ps_store.specs.Hints.{bucket_of};
ghost use Rattle.ps_store.specs.Operators.{operator_number};
ghost use Rattle.ps_store.specs.Overwritten.{overwritten};
ghost use Rattle.std.specs.Prelude.{◌≡◌, ◌<◌, ◌+◌, ◌≤◌, IfOk, List, ◌++◌, length, slice_set, take, drop, replicate, bytes_eq};

use crate::bucket::Text;
use crate::key::NameQuery;
use crate::object::PsObj;
use std::alloc::{AllocError, Global};
use std::marker::Model;

/// The elements of an array.
#[derive(Drop)]
pub struct Elements {
    items: Vec<PsObj>,
}

impl Model for Elements {
    ghost use Rattle.std.specs.Prelude.{List};
    ghost use Rattle.ps_store.specs.declared.object.PsObj.{PsObj};

    ghost Value = { List PsObj };

    ghost view = { λ e. e.items.items };
}

impl Elements {
    ghost use Rattle.ps_store.specs.declared.object.PsObj.TheVariants.{Null as NullObject};

    /// A copy of these objects.
    pub fn copy_of(alloc: Global, items: &[PsObj]) -> Result<Elements, AllocError>
        ensures { IfOk result (λ elements. elements ≡ items.now) }
    {
        let items = Vec::from_slice(alloc, items)?;
        Ok(Elements { items })
    }

    /// So many nulls.
    pub fn nulls(alloc: Global, len: usize) -> Result<Elements, AllocError>
        ensures { IfOk result (λ elements. elements ≡ replicate len NullObject) }
    {
        let items = Vec::from_elem(alloc, PsObj::Null, len)?;
        Ok(Elements { items })
    }

    /// The elements.
    pub fn as_slice(&self) -> &[PsObj]
        ensures { result.now ≡ self.now }
    {
        self.items.as_slice()
    }

    /// Puts elements from a place on.
    pub fn write(&mut self, at: usize, items: &[PsObj])
        requires { at + length items.now ≤ length self.old }
        ensures { self.new ≡ overwritten self.old at items.now }
    {
        self.items[at..at + items.len()].copy_from_slice(items);
    }
}

/// The bytes of a string, or the characters of a name, with their hash, the operator of that name, and its bucket.
#[derive(Drop)]
pub struct Characters {
    bytes: Vec<u8>,
    hash: u64,
    operator: Option<u16>,
    bucket: u8,
}

impl Model for Characters {
    ghost use Rattle.std.specs.Prelude.{List, ℕ, ◌≡◌};
    ghost use Rattle.ps_store.specs.Hashed.{text_hash};
    ghost use Rattle.ps_store.specs.Hints.{bucket_of};
    ghost use Rattle.ps_store.specs.Operators.{operator_number};

    ghost Value = { List ℕ };

    ghost view = { λ b. b.bytes.items };

    ghost invariant = { λ b. (b.hash ≡ text_hash b.bytes.items) × (b.operator ≡ operator_number b.bytes.items) × (b.bucket ≡ bucket_of b.bytes.items) };
}

impl Characters {
    /// These bytes.
    fn of(bytes: Vec<u8>) -> Characters
        ensures { result ≡ bytes.items }
    {
        let text = Text::new(bytes.as_slice());
        let hash = text.query.hash;
        let operator = text.operator;
        let bucket = text.bucket;
        Characters {
            bytes,
            hash,
            operator,
            bucket,
        }
    }

    /// A copy of these bytes.
    pub fn copy_of(alloc: Global, bytes: &[u8]) -> Result<Characters, AllocError>
        ensures { IfOk result (λ characters. characters ≡ bytes.now) }
    {
        let bytes = Vec::from_slice(alloc, bytes)?;
        Ok(Characters::of(bytes))
    }

    /// So many zeros.
    pub fn zeros(alloc: Global, len: usize) -> Result<Characters, AllocError>
        ensures { IfOk result (λ characters. characters ≡ replicate len 0) }
    {
        let bytes = Vec::from_elem(alloc, 0u8, len)?;
        Ok(Characters::of(bytes))
    }

    /// The bytes with what is known of the name that they are.
    pub fn text(&self) -> Text<'_>
        ensures { result.query.text.now ≡ self.now }
    {
        Text {
            query: NameQuery {
                text: self.bytes.as_slice(),
                hash: self.hash,
            },
            operator: self.operator,
            bucket: self.bucket,
        }
    }

    /// Puts bytes from a place on.
    pub fn write(&mut self, at: usize, bytes: &[u8])
        requires { at + length bytes.now ≤ length self.old }
        ensures { self.new ≡ overwritten self.old at bytes.now }
    {
        self.bytes[at..at + bytes.len()].copy_from_slice(bytes);
        let text = Text::new(self.bytes.as_slice());
        let hash = text.query.hash;
        let operator = text.operator;
        let bucket = text.bucket;
        self.hash = hash;
        self.operator = operator;
        self.bucket = bucket;
    }
}
