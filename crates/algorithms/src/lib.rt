// The algorithms of RFC 9180 that 01 knows: one constant table, and lookups by number that read it alone.
#![tactic(auto)]

ghost use Rattle.std.specs.Prelude.{◌≡◌};
ghost use Rattle.std.specs.Bool.{then_some};
ghost use Rattle.algorithms.specs.Table.{is_row, row_of};
ghost use Rattle.algorithms.specs.Sizes.{known_kem, known_kdf, known_aead, known_pair, enc_length, public_key_length, shortest_request, key_length, response_nonce_length, secret_length};

use wire::texts::HEAD_LENGTH;

// What an algorithm is for: the three columns of numbers.
#[derive(Clone, Copy, Debug, PartialEq, Eq)]
pub enum Kind {
    Kem,
    Kdf,
    Aead,
}

// A row of the table. A KEM has Nenc and Npk, an AEAD has Nk; what an algorithm does not have is 0.
#[derive(Clone, Copy)]
pub struct Row {
    pub kind: Kind,
    pub number: u16,
    pub enc: u16,
    pub public_key: u16,
    pub key: u16,
}

impl Row {
    // The row is that of the kind and the number.
    fn is(&self, kind: Kind, number: u16) -> bool
        ensures { result ≡ is_row kind number self.now }
    {
        self.kind == kind && self.number == number
    }
}

static TABLE: [Row; 11] = [
    Row {
        kind: Kind::Kem,
        number: 0x0010,
        enc: 65,
        public_key: 65,
        key: 0,
    },
    Row {
        kind: Kind::Kem,
        number: 0x0011,
        enc: 97,
        public_key: 97,
        key: 0,
    },
    Row {
        kind: Kind::Kem,
        number: 0x0012,
        enc: 133,
        public_key: 133,
        key: 0,
    },
    Row {
        kind: Kind::Kem,
        number: 0x0020,
        enc: 32,
        public_key: 32,
        key: 0,
    },
    Row {
        kind: Kind::Kem,
        number: 0x0021,
        enc: 56,
        public_key: 56,
        key: 0,
    },
    Row {
        kind: Kind::Kdf,
        number: 0x0001,
        enc: 0,
        public_key: 0,
        key: 0,
    },
    Row {
        kind: Kind::Kdf,
        number: 0x0002,
        enc: 0,
        public_key: 0,
        key: 0,
    },
    Row {
        kind: Kind::Kdf,
        number: 0x0003,
        enc: 0,
        public_key: 0,
        key: 0,
    },
    Row {
        kind: Kind::Aead,
        number: 0x0001,
        enc: 0,
        public_key: 0,
        key: 16,
    },
    Row {
        kind: Kind::Aead,
        number: 0x0002,
        enc: 0,
        public_key: 0,
        key: 32,
    },
    Row {
        kind: Kind::Aead,
        number: 0x0003,
        enc: 0,
        public_key: 0,
        key: 32,
    },
];

// The row of an algorithm; none where its number is unknown.
fn row_of(kind: Kind, number: u16) -> Option<Row>
    ensures { result ≡ row_of kind number }
{
    TABLE.iter().find(|row| row.is(kind, number)).copied()
}

// The numbers of each kind are a type of their own. Each has its `row`, a call with its kind: a trait that gives the kind would be longer than the three.
#[derive(Clone, Copy, Debug, PartialEq, Eq)]
pub struct Kem(pub u16);

#[derive(Clone, Copy, Debug, PartialEq, Eq)]
pub struct Kdf(pub u16);

#[derive(Clone, Copy, Debug, PartialEq, Eq)]
pub struct Aead(pub u16);

#[tactic(auto, unfolding(crate::specs::Sizes::known_kem, crate::specs::Sizes::enc_length, crate::specs::Sizes::public_key_length))]
impl Kem {
    fn row(self) -> Option<Row>
        ensures { result ≡ row_of Kind.Kem self.0 }
    {
        row_of(Kind::Kem, self.0)
    }

    // Nenc: the length of enc.
    pub fn enc_length(self) -> Option<usize>
        ensures { result ≡ then_some (known_kem self.0) (enc_length self.0) }
    {
        let row = self.row()?;
        Some(row.enc as usize)
    }

    // Npk: the length of a public key.
    pub fn public_key_length(self) -> Option<usize>
        ensures { result ≡ then_some (known_kem self.0) (public_key_length self.0) }
    {
        let row = self.row()?;
        Some(row.public_key as usize)
    }

    // The length of the shortest request: the head, enc and a tag.
    pub fn shortest_request(self) -> Option<usize>
        ensures { result ≡ then_some (known_kem self.0) (shortest_request self.0) }
    {
        let row = self.row()?;
        Some(HEAD_LENGTH + (row.enc as usize) + Aead::TAG_LENGTH)
    }
}

#[tactic(auto, unfolding(crate::specs::Sizes::known_kdf))]
impl Kdf {
    fn row(self) -> Option<Row>
        ensures { result ≡ row_of Kind.Kdf self.0 }
    {
        row_of(Kind::Kdf, self.0)
    }

    pub fn is_known(self) -> bool
        ensures { result ≡ known_kdf self.0 }
    {
        self.row().is_some()
    }
}

#[tactic(auto, unfolding(crate::specs::Sizes::known_aead, crate::specs::Sizes::key_length))]
impl Aead {
    // The length of the tag.
    pub const TAG_LENGTH: usize = 16;
    // Nn: the length of a nonce.
    pub const NONCE_LENGTH: usize = 12;

    fn row(self) -> Option<Row>
        ensures { result ≡ row_of Kind.Aead self.0 }
    {
        row_of(Kind::Aead, self.0)
    }

    pub fn is_known(self) -> bool
        ensures { result ≡ known_aead self.0 }
    {
        self.row().is_some()
    }

    // Nk: the length of a key.
    pub fn key_length(self) -> Option<usize>
        ensures { result ≡ then_some (known_aead self.0) (key_length self.0) }
    {
        let row = self.row()?;
        Some(row.key as usize)
    }

    // The length of the response nonce: max(Nn, Nk).
    pub fn response_nonce_length(self) -> Option<usize>
        ensures { result ≡ then_some (known_aead self.0) (response_nonce_length self.0) }
    {
        let row = self.row()?;
        Some(Aead::NONCE_LENGTH.max(row.key as usize))
    }

    // The length of the secret that is exported for the response: that of the response nonce.
    pub fn secret_length(self) -> Option<usize>
        ensures { result ≡ then_some (known_aead self.0) (secret_length self.0) }
    {
        self.response_nonce_length()
    }
}

// A pair is known where both its numbers are.
pub fn is_known_pair(kdf: Kdf, aead: Aead) -> bool
    ensures { result ≡ known_pair kdf.0 aead.0 }
{
    kdf.is_known() && aead.is_known()
}
