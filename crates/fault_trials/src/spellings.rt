// Headers of both layouts, each against what it spells.
use crate::trouble::Trouble;
use crate::words::{short, words_of};
use extents::{Header, Kind};
use hex::FromHex;
use map_join::Record;

/// The mark of the layout that is read and never written.
const OLD_MARK: [u8; 4] = *b"RBH1";

/// How many headers there were, and how many of them spell none.
#[derive(Drop)]
pub(crate) struct Spellings {
    pub(crate) headers: u64,
    pub(crate) bad: u64,
}

/// Decodes each row's header, and encodes again what it spells. A row is a number, 64 hex digits, and `bad`, `blank` or
/// `is`, a record's numbers and its kind, with commas between the three; the first line names them.
pub(crate) fn spell_all(text: &str) -> Result<Spellings, Trouble> {
    let mut counts = Spellings { headers: 0, bad: 0 };
    for row in text.lines().skip(1) {
        let is_bad = spell_row(row)?;
        counts.headers = counts.headers.saturating_add(1);
        counts.bad = counts.bad.saturating_add(u64::from(is_bad));
    }
    Ok(counts)
}

// Whether the row's header spells none. Layout 1 isn't encoded again, since it is never written.
fn spell_row(row: &str) -> Result<bool, Trouble> {
    let (_number, fields) = row.split_once(',').ok_or(Trouble::Input)?;
    let (digits, answer) = fields.split_once(',').ok_or(Trouble::Input)?;
    let bytes = header_of(digits)?;
    let expected = expected_of(answer)?;
    if Header::decode(&bytes).ok() != expected {
        return Err(Trouble::Wrong);
    }
    match expected {
        Some(header) if &bytes[..4] != &OLD_MARK[..] && header.encode() != bytes => Err(
            Trouble::Wrong,
        ),
        _ => Ok(expected.is_none()),
    }
}

/// The 32 bytes that hex digits spell.
pub(crate) fn header_of(digits: &str) -> Result<[u8; 32], Trouble> {
    <[u8; 32] as FromHex>::from_hex(digits)
        .ok()
        .ok_or(Trouble::Input)
}

fn expected_of(answer: &str) -> Result<Option<Header>, Trouble> {
    match answer {
        "bad" => Ok(None),
        "blank" => Ok(Some(Header::Blank)),
        _ => {
            let (record, kind) = answer.rsplit_once(' ').ok_or(Trouble::Input)?;
            Ok(Some(Header::Is(record_of(record)?, kind_of(kind)?)))
        }
    }
}

fn record_of(text: &str) -> Result<Record, Trouble> {
    let [block, version, hop, place, _, _, _, _] = words_of(text)?.numbers;
    Ok(Record {
        block,
        version,
        hop: short(hop)?,
        place: short(place)?,
    })
}

fn kind_of(word: &str) -> Result<Kind, Trouble> {
    match word {
        "data" => Ok(Kind::Data),
        "trim" => Ok(Kind::Trim),
        _ => Err(Trouble::Input),
    }
}
