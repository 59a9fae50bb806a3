//! Keys of dictionaries.

ghost use Rattle.std.specs.Prelude.{◌≡◌, ◌≤◌, ◌<◌, ◌↔◌, ◌==◌, IsTrue, length, IsSome, IfSome, bytes_eq};
ghost use Rattle.std.specs.Cmp.{partial_equiv_from_equiv, on_equiv};
ghost use Rattle.std.specs.Cmp.Lexicographic.{nat_list_eq_equiv};
ghost use Rattle.std.specs.Hash as fed;
ghost use Rattle.ps_store.specs.Hashed.{text_hash};

use crate::hashed::text_hash;
use arrayvec::ArrayVec;
use indexmap::Equivalent;
use std::hash::{Hash, Hasher};
use std::marker::Model;

/// The characters of a name, at most 127, kept in the value itself with their hash.
#[derive(Drop)]
pub struct NameText {
    bytes: ArrayVec<u8, 127>,
    hash: u64,
}

impl Model for NameText {
    ghost use Rattle.std.specs.Prelude.{List, ℕ, ◌≡◌};
    ghost use Rattle.ps_store.specs.Hashed.{text_hash};

    ghost Value = { List ℕ };

    ghost view = { λ t. t.bytes.items };

    ghost invariant = { λ t. t.hash ≡ text_hash t.bytes.items };
}

impl NameText {
    /// The characters, if there are at most 127.
    pub fn new(bytes: &[u8]) -> Option<NameText>
        ensures fits { IsSome result ↔ (length bytes.now ≤ 127) }
        ensures same { IfSome result (λ text. text ≡ bytes.now) }
    {
        NameText::of_query(NameQuery::new(bytes))
    }

    /// The characters of a query, if there are at most 127.
    fn of_query(query: NameQuery<'_>) -> Option<NameText>
        ensures fits { IsSome result ↔ (length query.entry.text.now ≤ 127) }
        ensures same { IfSome result (λ text. text ≡ query.entry.text.now) }
    {
        match ArrayVec::try_from(query.text) {
            Ok(bytes) => Some(NameText {
                bytes,
                hash: query.hash,
            }),
            Err(_) => None,
        }
    }

    /// The characters.
    pub fn as_slice(&self) -> &[u8]
        ensures { result.now ≡ self.now }
    {
        self.bytes.as_slice()
    }

    /// The characters with their hash.
    pub fn query(&self) -> NameQuery<'_>
        ensures { result.text.now ≡ self.now }
    {
        NameQuery {
            text: self.bytes.as_slice(),
            hash: self.hash,
        }
    }
}

/// Characters with their hash, to look a name up.
#[derive(Clone, Copy)]
pub struct NameQuery<'a> {
    pub text: &'a [u8],
    pub hash: u64,
    pub ghost hash_is: { hash ≡ text_hash text.now },
}

impl<'a> NameQuery<'a> {
    /// The query of these characters.
    pub fn new(text: &'a [u8]) -> NameQuery<'a>
        ensures { result.text.now ≡ text.now }
    {
        NameQuery {
            text,
            hash: text_hash(text),
        }
    }
}

impl<'a> PartialEq for NameQuery<'a> {
    ghost eq = { λ a b. bytes_eq a.text.now b.text.now };

    ghost laws = { partial_equiv_from_equiv (on_equiv (λ q. q.text.now) nat_list_eq_equiv) };

    fn eq(&self, other: &Self) -> bool {
        self.text == other.text
    }
}

impl<'a> Eq for NameQuery<'a> {
    ghost laws = { on_equiv (λ q. q.text.now) nat_list_eq_equiv };
}

impl<'a> Hash for NameQuery<'a> {
    ghost use Rattle.std.specs.Cmp.Lexicographic.{bytes_decides};
    ghost use Rattle.std.proofs.Common.{ap};

    ghost hash_input = { λ q. fed.u64 (text_hash q.text.now) };

    ghost respects_eq = { λ a b h. ap (λ text. fed.u64 (text_hash text)) ((bytes_decides a.text.now b.text.now).0 h) };

    fn hash<H: Hasher>(&self, state: &mut H) {
        state.write_u64(self.hash);
    }
}

/// A key of a dictionary: a name, an integer or a boolean.
#[derive(Drop)]
pub enum Key {
    Name(NameText),
    Int(i32),
    Bool(bool),
}

impl Key {
    ghost use Rattle.ps_store.specs.declared.key.Key.TheVariants.{Name as NameKey};
    ghost use Rattle.ps_store.specs.Key.{same_key};

    /// The name with these characters, if there are at most 127.
    pub fn name(text: &[u8]) -> Option<Key>
        ensures fits { IsSome result ↔ (length text.now ≤ 127) }
        ensures same { IfSome result (λ key. key ≡ NameKey text.now) }
    {
        Key::of_query(NameQuery::new(text))
    }

    /// The name that a query looks up, if it has at most 127 characters.
    pub fn of_query(query: NameQuery<'_>) -> Option<Key>
        ensures fits { IsSome result ↔ (length query.entry.text.now ≤ 127) }
        ensures same { IfSome result (λ key. key ≡ NameKey query.entry.text.now) }
    {
        match NameText::of_query(query) {
            Some(text) => Some(Key::Name(text)),
            None => None,
        }
    }

    /// Whether it is the name of a query.
    #[inline(always)]
    pub fn is_name(&self, name: NameQuery<'_>) -> bool
        ensures { result ≡ same_key (NameKey name.entry.text.now) self.now }
    {
        match self {
            Key::Name(text) => {
                let own = text.query();
                name.hash == own.hash && name.text == own.text
            }
            _ => false,
        }
    }
}

impl PartialEq for Key {
    ghost use Rattle.ps_store.specs.Key.{same_key};
    ghost use Rattle.ps_store.specs.KeyLaws.{same_key_equiv};

    ghost eq = { same_key };

    ghost laws = { partial_equiv_from_equiv same_key_equiv };

    fn eq(&self, other: &Self) -> bool {
        match self {
            Key::Name(a) => other.is_name(a.query()),
            Key::Int(a) => matches!(other, Key::Int(b) if *b == *a),
            Key::Bool(a) => matches!(other, Key::Bool(b) if *b == *a),
        }
    }
}

impl Eq for Key {
    ghost use Rattle.ps_store.specs.KeyLaws.{same_key_equiv};

    ghost laws = { same_key_equiv };
}

impl Hash for Key {
    ghost use Rattle.ps_store.specs.KeyLaws.{key_input, same_key-input};

    ghost hash_input = { key_input };

    ghost respects_eq = { same_key-input };

    fn hash<H: Hasher>(&self, state: &mut H) {
        match self {
            Key::Name(text) => state.write_u64(text.query().hash),
            Key::Int(n) => n.hash(state),
            Key::Bool(b) => b.hash(state),
        }
    }
}

impl<'a> Equivalent<Key> for NameQuery<'a> {
    ghost use Rattle.ps_store.specs.declared.key.Key.TheVariants.{Name as NameKey};
    ghost use Rattle.ps_store.specs.Key.{same_key};
    ghost use Rattle.ps_store.specs.KeyLaws.{same_key_equiv, same_key-input};

    ghost equivalent = { λ q k. same_key (NameKey q.text.now) k };

    ghost respects_hash = { λ q k h. same_key-input (NameKey q.text.now) k h };

    ghost respects_eq = { λ q x y h. same_key_equiv.congr (NameKey q.text.now) x y h };

    fn equivalent(&self, key: &Key) -> bool {
        key.is_name(*self)
    }
}
