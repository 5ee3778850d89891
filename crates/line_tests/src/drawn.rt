// The payload that the tests draw.

// Some payload of 60 bytes that begins EB 52.
pub(crate) fn payload() -> [u8; 60] {
    let mut bytes = [0u8; 60];
    for (i, byte) in bytes.iter_mut().enumerate() {
        *byte = (i * 41 % 256) as u8;
    }
    bytes[..2].copy_from_slice(&[0xeb, 0x52]);
    bytes
}
