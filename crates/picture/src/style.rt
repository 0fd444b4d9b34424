// Sizes and colours of the picture. Sizes are in pixels, colours are RGB.

use extent_groups::{Class, GroupTable};
use extents::Shape;

/// Space round the picture.
pub(crate) const MARGIN: u32 = 24;

/// Where the drives' columns begin, below the titles.
pub(crate) const TOP: u32 = 108;

/// The width of the extents' numbers, left of the first drive.
pub(crate) const NUMBERS: u32 = 30;

/// From one drive's column to the next.
pub(crate) const PITCH: u32 = 94;

/// The width of a group's number, left of an extent's units.
pub(crate) const STRIP: u32 = 22;

/// The width of a unit with the line right of it.
pub(crate) const CELL: u32 = 30;

/// The width of an extent.
pub(crate) const EXTENT: u32 = STRIP + 2 * CELL;

/// About how high all lines of a drive are together, where these are many.
const ROOM: u32 = 1_120;

/// Lines between units.
pub(crate) const LINE: u32 = 0x9a_a5_b1;

pub(crate) const WHITE: u32 = 0xff_ff_ff;

/// No slot's units.
pub(crate) const GREY: u32 = 0xd5_da_e0;

/// Extents in no group.
pub(crate) const FREE: u32 = 0xf1_f3_f5;

/// Lost drives.
pub(crate) const RED: u32 = 0xb8_32_2a;

/// The colours of a group.
#[derive(Clone, Copy)]
pub(crate) struct Tint {
    /// Live units.
    pub(crate) live: u32,
    /// Second copies.
    pub(crate) pale: u32,
    /// Parity, and the group's number.
    pub(crate) dark: u32,
}

/// The first mirrored groups' colours.
pub(crate) const BLUE: Tint = Tint {
    live: 0xb3_cb_e6,
    pale: 0xe4_ed_f7,
    dark: 0x3a_68_9c,
};

/// Blue to violet.
pub(crate) const MIRRORED: [Tint; 6] = [
    BLUE,
    Tint {
        live: 0xd4_c3_e4,
        pale: 0xf1_eb_f7,
        dark: 0x75_4c_97,
    },
    Tint {
        live: 0xae_d9_e2,
        pale: 0xe2_f3_f6,
        dark: 0x2a_76_87,
    },
    Tint {
        live: 0xe2_bf_d7,
        pale: 0xf7_ea_f3,
        dark: 0x90_42_79,
    },
    Tint {
        live: 0xbf_c1_ea,
        pale: 0xe9_ea_f8,
        dark: 0x4e_51_a3,
    },
    Tint {
        live: 0xbd_ca_d4,
        pale: 0xe9_ee_f2,
        dark: 0x4c_65_77,
    },
];

/// The first parity groups' colours.
pub(crate) const GREEN: Tint = Tint {
    live: 0xb9_d8_b1,
    pale: 0xe8_f3_e5,
    dark: 0x45_7c_3a,
};

/// Green to brown.
pub(crate) const PARITY: [Tint; 6] = [
    GREEN,
    Tint {
        live: 0xea_d0_98,
        pale: 0xf9_f0_db,
        dark: 0x92_6c_14,
    },
    Tint {
        live: 0xec_bd_a3,
        pale: 0xfa_ea_e1,
        dark: 0xa0_4e_25,
    },
    Tint {
        live: 0xac_d8_c6,
        pale: 0xe2_f3_ec,
        dark: 0x2a_79_5a,
    },
    Tint {
        live: 0xd1_d8_a4,
        pale: 0xf0_f3_e1,
        dark: 0x6e_79_26,
    },
    Tint {
        live: 0xd9_c5_ae,
        pale: 0xf3_ec_e4,
        dark: 0x7b_5c_3d,
    },
];

/// The colours of a group, by its class and number.
pub(crate) fn tint_of(groups: &GroupTable, group: u16) -> Tint {
    let at = (group % 6) as usize;
    match groups.class_of(group) {
        Some(Class::Mirrored) => MIRRORED[at],
        _ => PARITY[at],
    }
}

/// How high the rows are.
#[derive(Clone, Copy)]
pub(crate) struct Rows {
    /// Extents of a drive, 1 to 512.
    pub(crate) extents: u16,
    /// The height of a line of two units, 2 to 14.
    pub(crate) line: u8,
    /// The height of an extent with the line below it, 3 to 113.
    pub(crate) height: u32,
    /// From one extent to the next, 4 to 117.
    pub(crate) pitch: u16,
    /// The height of all extents of a drive, at most 9,216.
    pub(crate) total: u32,
}

impl Rows {
    /// Lower lines where there are many.
    pub(crate) fn new(shape: &Shape) -> Rows {
        let line = (ROOM / (shape.extents * shape.segments)).clamp(2, 14) as u8;
        let height = shape.segments as u16 * u16::from(line);
        let gap = if line < 9 { 2 } else { 5 };
        Rows {
            extents: shape.extents as u16,
            line,
            height: u32::from(height) + 1,
            pitch: height + gap,
            total: shape.extents.saturating_mul(u32::from(height + gap)),
        }
    }
}
