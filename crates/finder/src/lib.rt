#![tactic(auto)]

// What the finder promises, in named parts: specs/Promise. The calls that promise it are the desk's; the code below them is in finder_run.
