// The images of all points under all maps, one byte each.
ghost use Rattle.std.specs.Prelude.{◌≡◌, ◌<◌, ◌≤◌, length, IfOk};
ghost use Rattle.df_lists.specs.NumberSets.{IsSet};
ghost use Rattle.df_maps.specs.FullMaps.{point_count, full_maps, map_number, carried, image};
ghost use Rattle.df_maps.specs.Laws.{AreGroup};

use crate::OutOfMemory;
use df_maps::Maps;
use df_subsets::{Block, Point};
use std::alloc::Global;
use std::marker::Model;

/// The maps, each image of a point in a table. Contracts see it as the maps.
#[derive(Drop)]
pub struct Images {
    maps: Maps,
    points: u8,
    count: u32,
    table: Vec<u8>,
}

impl Model for Images {
    ghost use Rattle.df_maps.specs.FullMaps.{MapGroup};

    ghost Value = { MapGroup };

    ghost use Rattle.df_orbits.specs.LookupTables.{AreImages};

    ghost view = { λ a. a.maps };

    ghost invariant = { λ a. AreImages a.maps a.points a.count a.table.items };
}

impl Images {
    /// The images under these maps; the table has at most 2 MiB.
    pub fn new(alloc: Global, maps: &Maps) -> Result<Images, OutOfMemory>
        ensures { IfOk result (λ images. images ≡ maps.now) }
    {
        let points = maps.points();
        let count = maps.count();
        let width = usize::from(points);
        let mut table = Vec::new(alloc);
        for place in 0..count as usize * width {
            let p = Point((place % width) as u8);
            table.push(maps.image_point((place / width) as u32, p).0)?;
        }
        Ok(Images {
            maps: maps.copied(),
            points,
            count,
            table,
        })
    }

    /// The maps once more, without taking memory.
    pub fn maps(&self) -> Maps
        ensures { result ≡ self.now }
    {
        self.maps.copied()
    }

    /// The number of points, from 2 to 128.
    pub fn points(&self) -> u8
        ensures points { result ≡ point_count self.now }
        ensures some { 2 ≤ result }
        ensures small { result ≤ 128 }
        ensures maps { AreGroup self.now }
    {
        self.points
    }

    /// The number of maps, at least 1 and at most 16,384.
    pub fn count(&self) -> u32
        ensures count { result ≡ length (full_maps self.now) }
        ensures maps { AreGroup self.now }
        ensures some { 0 < result }
    {
        self.count
    }

    /// Where map number `i` carries a point.
    pub fn image_point(&self, i: u32, p: Point) -> Point
        requires number { i < length (full_maps self.now) }
        requires point { p < point_count self.now }
        ensures image { result ≡ carried self.now (map_number self.now i) p }
        ensures below { result < point_count self.now }
        ensures small { point_count self.now ≤ 128 }
    {
        let width = usize::from(self.points);
        Point(self.table[i as usize * width + usize::from(p.0)])
    }

    /// The image under map number `i` of the block that has these points, increasing.
    pub fn image_block(&self, i: u32, points: &[Point]) -> Block
        requires number { i < length (full_maps self.now) }
        requires block { IsSet (point_count self.now) points.now }
        ensures image { result ≡ image self.now (map_number self.now i) points.now }
        ensures block { IsSet (point_count self.now) result }
        ensures size { length result ≡ length points.now }
    {
        // Brings in that the maps are a group, so that no two points have one image.
        let _ = &self.count;
        let mut image = Block::empty();
        for p in points {
            image.insert(self.image_point(i, *p));
        }
        image
    }
}
