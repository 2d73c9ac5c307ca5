//! What a context takes part in, on the page for library users.

use osc_context::{Context, Features, NO_FEATURES};

/// Returns the context with block-wise transfer inside the protection, and nothing else.
pub fn with_blocks(context: Context) -> Context {
    let context = context.with_features(Features {
        blocks: true,
        ..NO_FEATURES
    });
    context
}

/// Returns the context with Observe, and nothing else.
pub fn with_observe(context: Context) -> Context {
    let context = context.with_features(Features {
        observe: true,
        ..NO_FEATURES
    });
    context
}
