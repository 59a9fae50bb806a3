//! The buckets of names: each operator's name has one of its own, and the other names share the rest.

ghost use Rattle.std.specs.Prelude.{◌≡◌, ◌<◌, IfSome};
ghost use Rattle.ps_store.specs.Hints.{bucket, bucket_of};
ghost use Rattle.ps_store.specs.Operators.{operator_number};

use crate::key::NameQuery;
use crate::operators::operator_number;

/// The bucket of a name with this hash, and with this number if it is an operator's.
fn bucket(hash: u64, operator: Option<u16>) -> u8
    requires { IfSome operator (λ n. n < 94) }
    ensures { result ≡ bucket hash operator }
{
    match operator {
        Some(number) => number as u8,
        None => 94 + (hash % 34) as u8,
    }
}

/// A text with what is known of the name that it is: its hash, the number of the operator with this name, and its bucket.
#[derive(Clone, Copy)]
pub struct Text<'a> {
    pub query: NameQuery<'a>,
    pub operator: Option<u16>,
    pub bucket: u8,
    pub ghost operator_is: { operator ≡ operator_number query.text.now },
    pub ghost bucket_is: { bucket ≡ bucket_of query.text.now },
}

impl<'a> Text<'a> {
    /// The text of these characters.
    #[tactic(auto, unfolding(crate::specs::Hints::bucket_of))]
    pub fn new(text: &'a [u8]) -> Text<'a>
        ensures { result.query.text.now ≡ text.now }
    {
        let query = NameQuery::new(text);
        let operator = operator_number(text);
        Text {
            query,
            operator,
            bucket: bucket(query.hash, operator),
        }
    }
}
