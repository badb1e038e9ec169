// The text of JSON, written token by token.
ghost use Rattle.std.specs.Prelude.{◌≡◌, ◌++◌, [], ◌∷◌, OnOk, IsUtf8};
ghost use Rattle.json.specs.Token.{begin_object, end_object, begin_array, end_array, key};
ghost use Rattle.json.specs.Print.{print};
ghost use Rattle.serde_json.specs.Data.{string, boolean};
ghost use Rattle.json_values.specs.Written.{count, wide};
ghost use Rattle.json_values.specs.Tokens.{value_tokens, member_tokens};

use ikl_base::{NoMemory, Octets};
use json::Writer;
use std::alloc::Global;
use std::marker::Model;

/// The tokens of JSON that are written so far. The caller opens and closes objects and arrays; commas and colons come by themselves.
#[derive(Drop)]
pub struct Tokens {
    writer: Writer,
}

impl Model for Tokens {
    ghost use Rattle.std.specs.Prelude.{◌≡◌, List, []};
    ghost use Rattle.json.specs.Token.{Token as JsonToken, tokens_code};

    ghost Value = { List JsonToken };

    ghost coded = { tokens_code };

    ghost view = { λ t. t.writer.tokens };

    ghost invariant = { λ t. t.writer.before ≡ [] };
}

impl Tokens {
    /// No token.
    pub fn new(alloc: Global) -> Tokens
        ensures { result ≡ [] }
    {
        Tokens {
            writer: Writer::new(Vec::new(alloc)),
        }
    }

    /// The text of the tokens.
    pub fn into_octets(self) -> Octets
        ensures text { result ≡ print self }
        ensures utf8 { IsUtf8 result }
    {
        let Tokens { writer } = self;
        Octets::from_items(writer.into_inner())
    }

    /// Opens an object.
    pub fn begin_object(&mut self) -> Result<(), NoMemory>
        ensures { OnOk result (self.new ≡ self.old ++ begin_object ∷ []) }
    {
        Ok(self.writer.begin_object()?)
    }

    /// Closes an object.
    pub fn end_object(&mut self) -> Result<(), NoMemory>
        ensures { OnOk result (self.new ≡ self.old ++ end_object ∷ []) }
    {
        Ok(self.writer.end_object()?)
    }

    /// Opens an array.
    pub fn begin_array(&mut self) -> Result<(), NoMemory>
        ensures { OnOk result (self.new ≡ self.old ++ begin_array ∷ []) }
    {
        Ok(self.writer.begin_array()?)
    }

    /// Closes an array.
    pub fn end_array(&mut self) -> Result<(), NoMemory>
        ensures { OnOk result (self.new ≡ self.old ++ end_array ∷ []) }
    {
        Ok(self.writer.end_array()?)
    }

    /// Adds the name of a member.
    pub fn name(&mut self, name: &str) -> Result<(), NoMemory>
        ensures { OnOk result (self.new ≡ self.old ++ key name.now ∷ []) }
    {
        Ok(self.writer.key(name)?)
    }

    /// Adds a string.
    pub fn string(&mut self, text: &str) -> Result<(), NoMemory>
        ensures { OnOk result (self.new ≡ self.old ++ value_tokens (string text.now)) }
    {
        Ok(self.writer.string(text)?)
    }

    /// Adds a number of at most 32 bits.
    pub fn number(&mut self, n: u32) -> Result<(), NoMemory>
        ensures { OnOk result (self.new ≡ self.old ++ value_tokens (count n)) }
    {
        Ok(self.writer.u64(u64::from(n))?)
    }

    /// Adds a member that is a string.
    pub fn word(&mut self, name: &str, word: &str) -> Result<(), NoMemory>
        ensures { OnOk result (self.new ≡ self.old ++ member_tokens name.now (string word.now)) }
    {
        self.name(name)?;
        self.string(word)
    }

    /// Adds a member that is a string of octets.
    pub fn text(&mut self, name: &str, octets: &[u8]) -> Result<(), NoMemory>
        requires { IsUtf8 octets.now }
        ensures { OnOk result (self.new ≡ self.old ++ member_tokens name.now (string octets.now)) }
    {
        match str::from_utf8(octets) {
            Ok(text) => self.word(name, text),
            Err(_) => Err(NoMemory),
        }
    }

    /// Adds a member that is a number of at most 32 bits.
    pub fn count(&mut self, name: &str, n: u32) -> Result<(), NoMemory>
        ensures { OnOk result (self.new ≡ self.old ++ member_tokens name.now (count n)) }
    {
        self.name(name)?;
        self.number(n)
    }

    /// Adds a member that is a number of 64 bits, as a string.
    pub fn wide(&mut self, name: &str, n: u64) -> Result<(), NoMemory>
        ensures { OnOk result (self.new ≡ self.old ++ member_tokens name.now (wide n)) }
    {
        self.name(name)?;
        Ok(self.writer.quoted_u64(n)?)
    }

    /// Adds a member that is true or false.
    pub fn flag(&mut self, name: &str, value: bool) -> Result<(), NoMemory>
        ensures { OnOk result (self.new ≡ self.old ++ member_tokens name.now (boolean value)) }
    {
        self.name(name)?;
        Ok(self.writer.boolean(value)?)
    }

    /// Opens a member that is an object.
    pub fn open_object(&mut self, name: &str) -> Result<(), NoMemory>
        ensures { OnOk result (self.new ≡ self.old ++ key name.now ∷ begin_object ∷ []) }
    {
        self.name(name)?;
        self.begin_object()
    }

    /// Opens a member that is an array.
    pub fn open_array(&mut self, name: &str) -> Result<(), NoMemory>
        ensures { OnOk result (self.new ≡ self.old ++ key name.now ∷ begin_array ∷ []) }
    {
        self.name(name)?;
        self.begin_array()
    }
}
