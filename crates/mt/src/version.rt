//! The version of the library, and of the release that it is of.

/// Major, minor and patch, each below 1,000. (This is its one place: `tools/release` reads it here, and `CHANGELOG.md` has a heading for it.)
pub const VERSION: [i32; 3] = [1, 0, 0];

/// The version as one number: major * 1,000,000 + minor * 1,000 + patch.
pub fn number() -> i32 {
    let [major, minor, patch] = VERSION;
    major * 1_000_000 + minor * 1_000 + patch
}
