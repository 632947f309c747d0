//! A page: the bytes of a Vec, while texts are put behind them.
ghost use Rattle.std.specs.Prelude.{◌≡◌, true, [], decimal, IfOk, ◌++◌, ◌∷◌, map, codes, option_map};
ghost use Rattle.sip_write.specs.Pages.{Puts, next_texts};
ghost use Rattle.event_headers.specs.Written.{comma_joined, parameter_text};
ghost use Rattle.sip_write.specs.Lines.{joined, line_end, header, contact_text, call_lines};

use itoa::Buffer;
use sip_read::Addr;
use sip_text::{NoMemory, Octets, Text};
use std::alloc::Global;

/// The bytes of a Vec, while texts are put behind them. A page is whole as long as no growth was refused.
#[derive(Drop)]
pub struct Page {
    pub bytes: Vec<u8>,
    pub is_whole: bool,
}

impl Page {
    /// An empty one, with room for this many bytes.
    pub fn new(alloc: Global, room: usize) -> Page
        ensures { result.bytes.items ≡ [] }
    {
        let mut bytes = Vec::new(alloc);
        let is_whole = bytes.reserve(room).is_ok();
        Page { bytes, is_whole }
    }

    /// What was put.
    pub fn octets(self) -> Result<Octets, NoMemory>
        ensures { IfOk result (λ octets. (self.is_whole ≡ true) × (octets ≡ self.bytes.items)) }
    {
        if !self.is_whole {
            return Err(NoMemory);
        }
        Ok(Octets::new(self.bytes))
    }

    /// Puts bytes.
    #[inline]
    pub fn put_bytes(&mut self, bytes: &[u8])
        ensures { Puts self.old bytes.now self.new }
    {
        if self.bytes.extend_from_slice(bytes).is_ok() {
            return;
        }
        self.is_whole = false;
    }

    /// Puts a text.
    #[inline]
    pub fn put(&mut self, text: &str)
        ensures { Puts self.old text.now self.new }
    {
        self.put_bytes(text.as_bytes());
    }

    /// Puts a number, in digits.
    pub fn put_number(&mut self, number: u64)
        ensures { Puts self.old (decimal number) self.new }
    {
        let mut buffer = Buffer::new();
        self.put(buffer.format(number));
    }

    /// Ends a line.
    pub fn end_line(&mut self)
        ensures { Puts self.old line_end self.new }
    {
        self.put("\r\n");
    }

    /// Puts `name: `.
    pub fn put_name(&mut self, name: &str)
        ensures { Puts self.old (name.now ++ codes ": ") self.new }
    {
        self.put(name);
        self.put(": ");
    }

    /// Puts `name: value` and CRLF.
    pub fn put_header(&mut self, name: &str, value: &str)
        ensures { Puts self.old (joined (header name.now value.now ∷ [])) self.new }
    {
        self.put_name(name);
        self.put(value);
        self.end_line();
    }

    /// Puts each value on a line of its own.
    pub fn put_headers(&mut self, name: &str, values: &[Text])
        ensures { Puts self.old (joined (map (header name.now) values.now)) self.new }
    {
        for value in values {
            self.put_header(name, value.as_str());
        }
    }

    /// Puts a line with a number.
    pub fn put_count(&mut self, name: &str, count: u64)
        ensures { Puts self.old (joined (header name.now (decimal count) ∷ [])) self.new }
    {
        self.put_name(name);
        self.put_number(count);
        self.end_line();
    }

    /// Puts `;name=value`, where there is a value.
    pub fn put_parameter(&mut self, name: &str, value: Option<&str>)
        ensures { Puts self.old (parameter_text name.now (option_map (λ v. v.now) value.entry)) self.new }
    {
        if let Some(value) = value {
            self.put(";");
            self.put(name);
            self.put("=");
            self.put(value);
        }
    }

    /// Puts `;name=seconds`, where there are seconds.
    pub fn put_seconds_parameter(&mut self, name: &str, seconds: Option<u32>)
        ensures { Puts self.old (parameter_text name.now (option_map decimal seconds)) self.new }
    {
        if let Some(seconds) = seconds {
            self.put(";");
            self.put(name);
            self.put("=");
            self.put_number(u64::from(seconds));
        }
    }

    /// Puts a party, and a tag where one is given.
    pub fn put_party(&mut self, name: &str, party: &str, tag: Option<&str>)
        ensures { Puts self.old (joined (header name.now
            (party.now ++ parameter_text (codes "tag") (option_map (λ t. t.now) tag.entry)) ∷ [])) self.new }
    {
        self.put_name(name);
        self.put(party);
        self.put_parameter("tag", tag);
        self.end_line();
    }

    /// Puts the lines Call-ID and CSeq.
    pub fn put_call(&mut self, call_id: &str, number: u32, method: &str)
        ensures { Puts self.old (joined (call_lines call_id.now number method.now)) self.new }
    {
        self.put_header("Call-ID", call_id);
        self.put_name("CSeq");
        self.put_number(u64::from(number));
        self.put(" ");
        self.put(method);
        self.end_line();
    }

    /// Puts the Contact of this server.
    pub fn put_contact(&mut self, me: &Addr)
        ensures { Puts self.old (joined (header (codes "Contact") (contact_text me.now) ∷ [])) self.new }
    {
        self.put_name("Contact");
        self.put("<sip:");
        self.put_addr(me);
        self.put(">");
        self.end_line();
    }

    /// Puts texts with a comma and SP before each.
    fn put_next(&mut self, texts: &[&str])
        ensures { Puts self.old (next_texts (map (λ t. t.now) texts.now)) self.new }
    {
        for text in texts {
            self.put(", ");
            self.put(text);
        }
    }

    /// Puts texts joined by commas.
    fn put_joined(&mut self, texts: &[&str])
        ensures { Puts self.old (comma_joined (map (λ t. t.now) texts.now)) self.new }
    {
        if let [first, others @ ..] = texts {
            self.put(first);
            self.put_next(others);
        }
    }

    /// Puts a line with texts joined by commas.
    pub fn put_list(&mut self, name: &str, texts: &[&str])
        ensures { Puts self.old (joined (header name.now (comma_joined (map (λ t. t.now) texts.now)) ∷ [])) self.new }
    {
        self.put_name(name);
        self.put_joined(texts);
        self.end_line();
    }
}

/// How many bytes the texts have, each with what stands around it on a line of its own.
pub fn texts_room(texts: &[Text]) -> usize {
    let mut room = 0usize;
    for text in texts {
        room = room.saturating_add(text.as_str().len()).saturating_add(16);
    }
    room
}
