// Laws of the trees that runs of a program reach, handed on.
pub use shim_laws_sources::laws::sources;
