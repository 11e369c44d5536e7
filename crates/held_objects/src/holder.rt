ghost use Rattle.std.specs.Prelude.{◌≡◌, ◌≢◌, ℕ, List, IfOk, MatchOption};
ghost use Rattle.holder_codec.specs.Bucket.{IsBucketHolder, bucket_words};
ghost use Rattle.holder_codec.specs.EdgeObject.{IsEdgeHolder, edge_object_words};
ghost use Rattle.holder_codec.specs.Index.{IsIndexHolder, index_words};
ghost use Rattle.holder_codec.specs.Meta.{IsMetaHolder, meta_words};
ghost use Rattle.holder_codec.specs.Vertex.{IsVertexHolder, vertex_words};

use gdi_kinds::NoMemory;
use holder_codec::{BucketHolder, EdgeHolder, IndexHolder, MetaHolder, VertexHolder};
use object_words::Words;
use std::alloc::Global;

/// What an object holds in one spelling.
pub trait Holder: Sized + Drop {
    ghost IsHolder: { Self → Type 0 };

    ghost words_of: { Self → List ℕ };

    fn write_words(&self, alloc: Global) -> Result<Words, NoMemory>
        requires { IsHolder self.now }
        ensures { IfOk result (λ words. words ≡ words_of self.now) };

    fn read_words(alloc: Global, words: &Words) -> Result<Option<Self>, NoMemory>
        ensures { IfOk result (λ found. MatchOption found
            ((held : Self) → IsHolder held → words.now ≢ words_of held)
            (λ held. IsHolder held × (words.now ≡ words_of held))) };
}

impl Holder for BucketHolder {
    ghost IsHolder = { IsBucketHolder };

    ghost words_of = { bucket_words };

    fn write_words(&self, alloc: Global) -> Result<Words, NoMemory> {
        self.write(alloc)
    }

    fn read_words(alloc: Global, words: &Words) -> Result<Option<BucketHolder>, NoMemory> {
        BucketHolder::read(alloc, words)
    }
}

impl Holder for MetaHolder {
    ghost IsHolder = { IsMetaHolder };

    ghost words_of = { meta_words };

    fn write_words(&self, alloc: Global) -> Result<Words, NoMemory> {
        self.write(alloc)
    }

    fn read_words(alloc: Global, words: &Words) -> Result<Option<MetaHolder>, NoMemory> {
        MetaHolder::read(alloc, words)
    }
}

impl Holder for VertexHolder {
    ghost IsHolder = { IsVertexHolder };

    ghost words_of = { vertex_words };

    fn write_words(&self, alloc: Global) -> Result<Words, NoMemory> {
        self.write(alloc)
    }

    fn read_words(alloc: Global, words: &Words) -> Result<Option<VertexHolder>, NoMemory> {
        VertexHolder::read(alloc, words)
    }
}

impl Holder for IndexHolder {
    ghost IsHolder = { IsIndexHolder };

    ghost words_of = { index_words };

    fn write_words(&self, alloc: Global) -> Result<Words, NoMemory> {
        self.write(alloc)
    }

    fn read_words(alloc: Global, words: &Words) -> Result<Option<IndexHolder>, NoMemory> {
        IndexHolder::read(alloc, words)
    }
}

impl Holder for EdgeHolder {
    ghost IsHolder = { IsEdgeHolder };

    ghost words_of = { edge_object_words };

    fn write_words(&self, alloc: Global) -> Result<Words, NoMemory> {
        self.write(alloc)
    }

    fn read_words(alloc: Global, words: &Words) -> Result<Option<EdgeHolder>, NoMemory> {
        EdgeHolder::read(alloc, words)
    }
}
