// Records of a script, read from the bytes at hand (document 01, "The script program").

#![tactic(auto)]

ghost use Rattle.std.specs.Prelude.{◌≡◌};
ghost use Rattle.script_records.specs.Parsed.{kind_numbered, size_of, size_at, record_in, rights_in, parsed};

#[derive(Clone, Copy)]
pub enum Kind {
    Open,
    Root,
    Alias,
    Carve,
    Send,
    Revoke,
    CreateRevokeCapa,
}

impl Kind {
    fn numbered(n: u64) -> Option<Kind>
        ensures { result ≡ kind_numbered n }
    {
        match n {
            1 => Some(Kind::Open),
            2 => Some(Kind::Root),
            3 => Some(Kind::Alias),
            4 => Some(Kind::Carve),
            5 => Some(Kind::Send),
            6 => Some(Kind::Revoke),
            7 => Some(Kind::CreateRevokeCapa),
            _ => None,
        }
    }

    // The bytes of a record of this kind, its length's two included.
    #[tactic(auto, unfolding(crate::specs::Parsed::size_of))]
    pub fn size(self) -> usize
        ensures { result ≡ size_of self }
    {
        match self {
            Kind::Open => 28,
            Kind::Root => 44,
            Kind::Alias => 52,
            Kind::Carve => 52,
            Kind::Send => 36,
            Kind::Revoke => 28,
            Kind::CreateRevokeCapa => 28,
        }
    }
}

// The same for the kind with this number; 0 where there is no such kind.
pub fn size_of(kind: u64) -> usize
    ensures { result ≡ size_at kind }
{
    match Kind::numbered(kind) {
        Some(k) => k.size(),
        None => 0,
    }
}

// A record: its kind and its fields, 0 where its kind has fewer.
#[derive(Clone, Copy)]
pub struct Record {
    pub kind: Kind,
    pub a: u64,
    pub b: u64,
    pub c: u64,
    pub d: u64,
    pub e: u64,
    pub f: u64,
}

// What stands at the front of the bytes is no record, whatever follows.
#[derive(Clone, Copy)]
pub struct BadRecord;

// The fields that stand in these bytes.
fn record_in(kind: Kind, b: &[u8]) -> Record
    ensures { result ≡ record_in kind b.now }
{
    Record {
        kind,
        a: byte_numbers::number_at::<8>(b, 0),
        b: byte_numbers::number_at::<8>(b, 8),
        c: byte_numbers::number_at::<8>(b, 16),
        d: byte_numbers::number_at::<8>(b, 24),
        e: byte_numbers::number_at::<8>(b, 32),
        f: byte_numbers::number_at::<8>(b, 40),
    }
}

// The rights that a record names; 0 for a kind that names none.
#[tactic(auto, unfolding(crate::specs::Parsed::rights_in))]
fn rights_in(r: Record) -> u64
    ensures { result ≡ rights_in r }
{
    match r.kind {
        Kind::Root => r.e,
        Kind::Alias | Kind::Carve => r.f,
        Kind::Open | Kind::Send | Kind::Revoke | Kind::CreateRevokeCapa => 0,
    }
}

// The record that the bytes at hand begin with; `None` for a part of one that can still be a call: more bytes are needed. A kind and a length
// that do not fit are told from the first four bytes.
pub fn parse(b: &[u8]) -> Result<Option<Record>, BadRecord>
    ensures { result ≡ parsed b.now }
{
    if b.len() < 4 {
        return Ok(None);
    }
    let kind = Kind::numbered(byte_numbers::number_at::<2>(b, 2)).ok_or(BadRecord)?;
    let size = kind.size();
    if byte_numbers::number_at::<2>(b, 0) as usize + 2 != size {
        return Err(BadRecord);
    }
    if b.len() < size {
        return Ok(None);
    }
    let r = record_in(kind, &b[4..size]);
    if 255 < rights_in(r) {
        return Err(BadRecord);
    }
    Ok(Some(r))
}
