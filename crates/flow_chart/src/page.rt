// Elements written one after another.

ghost use Rattle.std.specs.Prelude.{◌≡◌, ◌++◌, ◌∷◌, [], map, codes, decimal, OnOk};
ghost use Rattle.std.specs.List.{flat_map};
ghost use Rattle.flow_chart.specs.Elements.{attribute_bytes, escaped_byte, escaped, opening, closing, element_bytes, Empty, Holding};
ghost use Rattle.flow_chart.specs.Pages.{attribute_of};

use flow_base::memory::NoMemory;
use itoa::Buffer;
use std::alloc::Global;
use std::marker::Model;

/// An attribute of an element: its name, and its value, which has no sign that is written otherwise, or is a number.
#[derive(Clone, Copy)]
pub(crate) enum Attribute<'a> {
    Worded(&'a [u8], &'a [u8]),
    Measured(&'a [u8], u64),
}

/// The bytes of elements. Contracts see it as the list of these.
#[derive(Drop)]
pub struct Page {
    bytes: Vec<u8>,
}

impl Model for Page {
    ghost use Rattle.std.specs.Prelude.{ℕ, List};

    ghost Value = { List ℕ };

    ghost view = { λ p. p.bytes.items };
}

impl Page {
    /// No byte. It takes no memory.
    pub(crate) fn new(alloc: Global) -> Page
        ensures { result ≡ [] }
    {
        Page {
            bytes: Vec::new(alloc),
        }
    }

    /// The bytes.
    pub(crate) fn bytes(&self) -> &[u8]
        ensures { result.now ≡ self.now }
    {
        &self.bytes
    }

    /// Adds bytes.
    pub(crate) fn put(&mut self, bytes: &[u8]) -> Result<(), NoMemory>
        ensures { OnOk result (self.new ≡ self.old ++ bytes.now) }
    {
        self.bytes.extend_from_slice(bytes)?;
        Ok(())
    }

    // Adds a number.
    fn put_number(&mut self, number: u64) -> Result<(), NoMemory>
        ensures { OnOk result (self.new ≡ self.old ++ decimal number) }
    {
        self.put(Buffer::new().format(number).as_bytes())
    }

    // Adds an attribute.
    fn put_attribute(&mut self, attribute: Attribute<'_>) -> Result<(), NoMemory>
        ensures { OnOk result (self.new
            ≡ self.old ++ attribute_bytes (attribute_of attribute.entry)) }
    {
        self.put(b" ")?;
        match attribute {
            Attribute::Worded(name, value) => {
                self.put(name)?;
                self.put(b"=\"")?;
                self.put(value)?;
            }
            Attribute::Measured(name, value) => {
                self.put(name)?;
                self.put(b"=\"")?;
                self.put_number(value)?;
            }
        }
        self.put(b"\"")
    }

    /// Opens a tag with its attributes.
    pub(crate) fn open(&mut self, tag: &[u8], attributes: &[Attribute<'_>]) -> Result<(), NoMemory>
        ensures { OnOk result (self.new
            ≡ self.old ++ opening tag.now (map attribute_of attributes.now)) }
    {
        self.put(b"<")?;
        self.put(tag)?;
        for attribute in attributes {
            self.put_attribute(*attribute)?;
        }
        Ok(())
    }

    /// Closes a tag.
    pub(crate) fn close(&mut self, tag: &[u8]) -> Result<(), NoMemory>
        ensures { OnOk result (self.new ≡ self.old ++ closing tag.now) }
    {
        self.put(b"</")?;
        self.put(tag)?;
        self.put(b">\n")
    }

    // Adds a sign of a text.
    fn put_sign(&mut self, sign: u8) -> Result<(), NoMemory>
        ensures { OnOk result (self.new ≡ self.old ++ escaped_byte sign) }
    {
        match sign {
            b'&' => self.put(b"&amp;"),
            b'<' => self.put(b"&lt;"),
            b'>' => self.put(b"&gt;"),
            _ => self.put(&[sign]),
        }
    }

    // Adds a text.
    fn put_text(&mut self, text: &[u8]) -> Result<(), NoMemory>
        ensures { OnOk result (self.new ≡ self.old ++ escaped text.now) }
    {
        for sign in text {
            self.put_sign(*sign)?;
        }
        Ok(())
    }

    /// Adds an empty element.
    pub(crate) fn empty(&mut self, tag: &[u8], attributes: &[Attribute<'_>]) -> Result<(), NoMemory>
        ensures { OnOk result (self.new
            ≡ self.old ++ element_bytes (Empty tag.now (map attribute_of attributes.now))) }
    {
        self.open(tag, attributes)?;
        self.put(b"/>\n")
    }

    /// Adds an element that holds a text.
    pub(crate) fn holding(
        &mut self,
        tag: &[u8],
        attributes: &[Attribute<'_>],
        text: &[u8],
    ) -> Result<(), NoMemory>
        ensures { OnOk result (self.new ≡ self.old
            ++ element_bytes (Holding tag.now (map attribute_of attributes.now) text.now)) }
    {
        self.open(tag, attributes)?;
        self.put(b">")?;
        self.put_text(text)?;
        self.close(tag)
    }
}
