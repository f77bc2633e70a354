// Lists and tests, which know nothing of segments: sorted, merged, compared, counted; their laws. No code.
#![tactic(auto)]
