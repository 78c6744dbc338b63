use ctrl_types::CtrlId;

// The controls by their ids (Linux, drivers/media/v4l2-core/v4l2-ctrls-defs.c).
const CONTROLS: &[(u32, &str)] = &[
    (0x0098_0900, "Brightness"),
    (0x0098_0901, "Contrast"),
    (0x0098_0902, "Saturation"),
    (0x0098_0903, "Hue"),
    (0x0098_090b, "Black Level"),
    (0x0098_090c, "White Balance, Automatic"),
    (0x0098_090d, "Do White Balance"),
    (0x0098_090e, "Red Balance"),
    (0x0098_090f, "Blue Balance"),
    (0x0098_0910, "Gamma"),
    (0x0098_0911, "Exposure"),
    (0x0098_0912, "Gain, Automatic"),
    (0x0098_0913, "Gain"),
    (0x0098_0914, "Horizontal Flip"),
    (0x0098_0915, "Vertical Flip"),
    (0x0098_0918, "Power Line Frequency"),
    (0x0098_0919, "Hue, Automatic"),
    (0x0098_091a, "White Balance Temperature"),
    (0x0098_091b, "Sharpness"),
    (0x0098_091c, "Backlight Compensation"),
    (0x0098_091f, "Color Effects"),
    (0x0098_0920, "Brightness, Automatic"),
    (0x0098_0922, "Rotate"),
    (0x0098_0929, "Alpha Component"),
    (0x009a_0901, "Auto Exposure"),
    (0x009a_0902, "Exposure Time, Absolute"),
    (0x009a_0903, "Exposure, Dynamic Framerate"),
    (0x009a_0904, "Pan, Relative"),
    (0x009a_0905, "Tilt, Relative"),
    (0x009a_0908, "Pan, Absolute"),
    (0x009a_0909, "Tilt, Absolute"),
    (0x009a_090a, "Focus, Absolute"),
    (0x009a_090b, "Focus, Relative"),
    (0x009a_090c, "Focus, Automatic Continuous"),
    (0x009a_090d, "Zoom, Absolute"),
    (0x009a_090e, "Zoom, Relative"),
    (0x009a_090f, "Zoom, Continuous"),
    (0x009a_0910, "Privacy"),
    (0x009a_0911, "Iris, Absolute"),
    (0x009a_0913, "Auto Exposure, Bias"),
    (0x009a_0914, "White Balance, Auto & Preset"),
    (0x009a_0915, "Wide Dynamic Range"),
    (0x009a_0916, "Image Stabilization"),
    (0x009a_0917, "ISO Sensitivity"),
    (0x009a_0918, "ISO Sensitivity, Auto"),
    (0x009a_0919, "Exposure, Metering Mode"),
    (0x009a_091a, "Scene Mode"),
    (0x009c_0901, "LED Mode"),
    (0x009c_0902, "Strobe Source"),
    (0x009c_0903, "Strobe"),
    (0x009c_0904, "Stop Strobe"),
    (0x009c_0905, "Strobe Status"),
    (0x009c_0906, "Strobe Timeout"),
    (0x009c_0907, "Intensity, Flash Mode"),
    (0x009c_0908, "Intensity, Torch Mode"),
    (0x009c_0909, "Intensity, Indicator"),
    (0x009c_090a, "Faults"),
    (0x009c_090b, "Charge"),
    (0x009c_090c, "Ready to Strobe"),
    (0x009e_0901, "Vertical Blanking"),
    (0x009e_0902, "Horizontal Blanking"),
    (0x009e_0903, "Analogue Gain"),
    (0x009e_0904, "Red Pixel Value"),
    (0x009e_0905, "Green (Red) Pixel Value"),
    (0x009e_0906, "Blue Pixel Value"),
    (0x009e_0907, "Green (Blue) Pixel Value"),
    (0x009f_0901, "Link Frequency"),
    (0x009f_0902, "Pixel Rate"),
    (0x009f_0903, "Test Pattern"),
    (0x009f_0904, "Deinterlacing Mode"),
    (0x009f_0905, "Digital Gain"),
];

// The classes by their numbers.
const CLASSES: &[(u32, &str)] = &[
    (0x0098_0000, "User Controls"),
    (0x0099_0000, "Codec Controls"),
    (0x009a_0000, "Camera Controls"),
    (0x009b_0000, "FM Radio Modulator Controls"),
    (0x009c_0000, "Flash Controls"),
    (0x009d_0000, "JPEG Compression Controls"),
    (0x009e_0000, "Image Source Controls"),
    (0x009f_0000, "Image Processing Controls"),
    (0x00a0_0000, "Digital Video Controls"),
    (0x00a1_0000, "FM Radio Receiver Controls"),
    (0x00a2_0000, "RF Tuner Controls"),
    (0x00a3_0000, "Detection Controls"),
    (0x00a4_0000, "Stateless Codec Controls"),
    (0x00a5_0000, "Colorimetry Controls"),
];

fn in_table(table: &'static [(u32, &'static str)], number: u32) -> Option<&'static str> {
    match table.iter().find(|row| row.0 == number) {
        Some(&(_, name)) => Some(name),
        None => None,
    }
}

/// The kernel's name of a class; none where it has none.
pub fn class_name(class: u32) -> Option<&'static str> {
    in_table(CLASSES, class)
}

/// What the heading of a class says: the name that its device gives it, or else the kernel's, or else that of a driver's own controls.
///
/// - `own`: the name that the device gives it.
pub fn heading_name<'a>(class: u32, own: Option<&'a str>) -> &'a str {
    match own {
        Some(name) => name,
        None => class_name(class).unwrap_or("Driver Controls"),
    }
}

/// The kernel's name of a control, where `v4l2-ctl` makes this word of it.
pub fn control_name(id: CtrlId, word: &[u8]) -> Option<&'static str> {
    match in_table(CONTROLS, id.0) {
        Some(name) if is_word_of(word, name.as_bytes()) => Some(name),
        _ => None,
    }
}

// Whether `v4l2-ctl` makes this word of a name: its letters and digits in lower case, and one `_` for all that stands between two of them.
fn is_word_of(word: &[u8], name: &[u8]) -> bool {
    let mut at = 0;
    let mut between = false;
    for byte in name {
        if byte.is_ascii_alphanumeric() {
            if between {
                if at >= word.len() || word[at] != 95 {
                    return false;
                }
                at += 1;
                between = false;
            }
            if at >= word.len() || word[at] != byte.to_ascii_lowercase() {
                return false;
            }
            at += 1;
        } else if at > 0 {
            between = true;
        }
    }
    at == word.len()
}
