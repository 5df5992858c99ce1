// A boundary from its vertices (document 02, ticket 7). "Two coders of vertices have already disagreed": this is one rule,
// proved.
//
// `import_vertices` turns the vertices of a boundary into its edge bytes; its contract is in specs/Importing.antt. It has no
// `requires`: it takes every input.
#![tactic(auto)]

mod boundary;
mod importing;
mod steps;

pub use importing::import_vertices;
