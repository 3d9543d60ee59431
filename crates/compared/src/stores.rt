use comparing::cases::Asked;
use listing::words::number_of;
use records::settings::Sizes;
use std::alloc::{AllocError, Global};

// The bytes that pairs of hexadecimal digits write; another pair is left out.
fn bytes_of(heap: Global, digits: &str) -> Result<Vec<u8>, AllocError> {
    let mut bytes = Vec::new(heap);
    for pair in digits.as_bytes().chunks(2) {
        if let Some(byte) = byte_of(pair) {
            bytes.push(byte)?;
        }
    }
    Ok(bytes)
}

fn byte_of(pair: &[u8]) -> Option<u8> {
    let [high, low] = pair else {
        return None;
    };
    let high = char::from(*high).to_digit(16)?;
    let low = char::from(*low).to_digit(16)?;
    u8::try_from(high * 16 + low).ok()
}

fn sizes_of(cores: &str, cells: &str, log_bytes: &str) -> Option<Sizes> {
    Some(Sizes {
        cores: number_of(cores.as_bytes())?,
        cells: number_of(cells.as_bytes())?,
        log_bytes: number_of(log_bytes.as_bytes())?,
    })
}

// A store and its sizes, as a table writes them; none for other words.
pub(crate) fn store_of(heap: Global, words: &str) -> Result<Option<Asked>, AllocError> {
    let words: Vec<&str> = words.split(' ').collect(heap)?;
    let [cores, cells, log_bytes, digits] = words.as_slice() else {
        return Ok(None);
    };
    let store = bytes_of(heap, digits)?;
    Ok(sizes_of(cores, cells, log_bytes).map(|sizes| Asked::Inspect { store, sizes }))
}
