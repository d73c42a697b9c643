// A label. Its rules are part of the type, so that no label outside them exists.
ghost use Rattle.std.specs.Prelude.{◌≡◌, ◌≤◌, true, length};
ghost use Rattle.byte_strings.specs.Strings.{listed};
ghost use Rattle.label.specs.Rules.{digest_range, key_range, fanout_range, depth_range, page_range, salt_length_of, are_layout_bytes};

use blake2::Variant;
use byte_strings::Bytes;

// Lengths are in bytes: of a digest, of the key, and of a page.
#[derive(Clone, Copy, Debug)]
pub struct Label {
    pub variant: Variant,
    pub digest: u8,
    pub key: u8,
    pub fanout: u8,
    pub depth: u8,
    pub page: u16,
    pub salt: Bytes<16>,
    pub layout: Bytes<16>,
    ghost digest_low: { (digest_range variant).low ≤ digest },
    ghost digest_high: { digest ≤ (digest_range variant).high },
    ghost key_high: { key ≤ (key_range variant).high },
    ghost fanout_low: { fanout_range.low ≤ fanout },
    ghost fanout_high: { fanout ≤ fanout_range.high },
    ghost depth_low: { depth_range.low ≤ depth },
    ghost depth_high: { depth ≤ depth_range.high },
    ghost page_low: { page_range.low ≤ page },
    ghost page_high: { page ≤ page_range.high },
    ghost salt_length: { length (listed salt) ≡ salt_length_of variant },
    ghost layout_low: { 1 ≤ length (listed layout) },
    ghost layout_high: { length (listed layout) ≤ salt_length_of variant },
    ghost layout_bytes: { are_layout_bytes (listed layout) ≡ true },
}
