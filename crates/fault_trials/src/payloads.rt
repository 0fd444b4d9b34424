// Payloads that a file of steps names by a number.

/// The payload that a number names: eight zeros of 0, else eight bytes that are all different, the number first.
pub(crate) fn payload_of(number: u8) -> [u8; 8] {
    let mut payload = [0; 8];
    if number == 0 {
        return payload;
    }
    let mut next = number;
    for byte in payload.iter_mut() {
        *byte = next;
        // 29 is odd, so that no two of eight bytes are equal.
        next = next.wrapping_add(29);
    }
    payload
}
